//! The rule of a step, and the reading of frames.

ghost use Rattle.std.specs.Prelude.{◌≡◌, ◌≢◌, ◌≤◌, not, ◌&&◌, ◌<◌, ◌+◌, ◌*◌, ◌^◌, ℕ, List, Option, Some, true, false, if◌then◌else◌, IfOk, OnOk, OnErr, IsTrue, IsFalse, [], ◌++◌, length, take, drop};
ghost use Rattle.amqp_rules.specs.Talk.{is_open, is_asked};
ghost use Rattle.amqp_ring.specs.Ring.{capacity as room};
ghost use Rattle.amqp_rules.specs.Changes.{present_at, starve};
ghost use Rattle.amqp_rules.specs.Frames.{on_frame};
ghost use Rattle.amqp_rules.specs.Links.{link_failed, lost};
ghost use Rattle.amqp_rules.specs.Commands.{command as command_rule};
ghost use Rattle.amqp_engine.specs.Plan.{at_most_64};
ghost use Rattle.amqp_engine.specs.Engine.{Engine, rule_at, step_linked, step_piece, step_engine, step_questions, front_of, can_read, settle, read_badly, read_row, row_questions, read_questions, is_more, starve_at};
ghost use Rattle.amqp_auth.specs.declared.asked.Asked.{Asked};
ghost use Rattle.amqp_auth.specs.declared.asked.Question.{Question};
ghost use Rattle.amqp_auth.specs.Asking.{Unanswered};
ghost use Rattle.amqp_engine.specs.Turn.{begun, is_part, is_piece, step_part, reading, cut_questions};
ghost use Rattle.amqp_engine.specs.Making.{making, parts_of, is_event, is_whole, keeps_unread, IsSettled, piece_joined, FewParts, Reaches, Heard, Broke, BreaksAt, cut_turn, StepHears, RowHears, Blames};
ghost use Rattle.amqp_frame.specs.declared.frame.Read.TheVariants as reads;

use super::Wire;
use crate::port::Step;
use amqp_frame::{Frame, Read, read_frame};
use amqp_ring::Buffer;
use amqp_session::{AuthList, AuthProvider, Cmd, IoFault, Misread};
use amqp_types::NoMemory;
use std::alloc::Global;

// What a buffer keeps, in one of so many bytes.
fn copy(alloc: Global, buffer: &Buffer, capacity: usize) -> Result<Buffer, NoMemory>
    requires some { 1 ≤ capacity }
    requires grows { room buffer.now ≤ capacity }
    ensures kept { IfOk result (λ copied. copied.kept ≡ buffer.now.kept) }
    ensures room { IfOk result (λ copied. room copied ≡ capacity) }
{
    let mut copied = Buffer::with_capacity(alloc, capacity)?;
    let (first, second) = buffer.slices();
    copied.write(first);
    copied.write(second);
    Ok(copied)
}

impl Wire {
    // The step of a turn, with the frames of its piece. Counts the parts.
    pub(super) fn read_step<A: AuthProvider>(
        &mut self,
        at: u64,
        step: Step,
        bytes: &[u8],
        provider: &mut A,
        auths: &mut AuthList,
        parts: &mut u64,
    ) -> Result<(), NoMemory>
        requires parts { parts.old ≡ 0 }
        requires can { A.can provider.old }
        ensures can { A.can provider.new }
        ensures ok { OnOk result (Heard (λ answers questions. (cut : Option ℕ) (more : List Asked)
            → Reaches cut parts.new
            → reading (is_piece step) (step_part step bytes.now (begun at cut (answers ++ more) self.old))
            ≡ making at cut more questions self.new parts.new)
            (A.allows provider.old) (A.allows provider.new) auths.old.list auths.new.list) }
        ensures err { OnErr result (Broke parts.new (λ answers questions next e.
            (starve_at at parts.new self.new ≡ starve_at at parts.new e)
            × (next ≡ cut_questions (cut_turn at step bytes.now answers parts.new) self.old)
            × (reading (is_piece step) (step_part step bytes.now (begun at (Some parts.new) answers self.old))
            ≡ making at (Some parts.new) (drop (length questions) answers) questions e parts.new))
            (A.allows provider.old) auths.old.list auths.new.list) }
        ensures bound { FewParts parts.new }
        ensures starved { self.new.starved ≡ self.old.starved }
        ensures never_falls { A.refusals provider.old ≤ A.refusals provider.new }
        ensures blames { Blames self.old.talk self.new.talk (A.refusals provider.old) (A.refusals provider.new) }
    {
        if step.is_piece() && self.session.is_open() {
            drop(step);
            return self.read_piece(at, bytes, provider, auths, parts);
        }
        *parts = self.take_step(at, step, provider, auths)?;
        Ok(())
    }

    // The rule of a step, whatever its bytes are, but a piece on the open link. Says how many parts
    // of the turn it is, one or none. Where memory is refused, the session has ended, and nothing
    // else is done.
    pub(super) fn take_step<A: AuthProvider>(
        &mut self,
        at: u64,
        step: Step,
        provider: &mut A,
        auths: &mut AuthList,
    ) -> Result<u64, NoMemory>
        requires apart { IsFalse (is_piece step && is_open self.old.talk) }
        requires can { A.can provider.old }
        ensures can { A.can provider.new }
        ensures ok { OnOk result (StepHears at step self.old self.new
            (A.allows provider.old) (A.allows provider.new) auths.old.list auths.new.list) }
        ensures parts { IfOk result (λ n. n ≡ parts_of (is_part step self.old)) }
        ensures err { OnErr result (self.new ≡ rule_at at starve self.old) }
        ensures unanswered { OnErr result (Unanswered (λ answers. step_questions at step answers self.old)
            (A.allows provider.old) auths.old.list auths.new.list) }
        ensures refused { OnErr result (is_part step self.old ≡ true) }
        ensures never_falls { A.refusals provider.old ≤ A.refusals provider.new }
    {
        match step {
            Step::Tick => self.take_tick(at, provider, auths),
            Step::Command(command) => self.take_command(at, command),
            other => {
                let parts = self.take_event(at, &other);
                drop(other);
                parts
            }
        }
    }

    // The rule of a step that is no command and no tick.
    fn take_event(&mut self, at: u64, step: &Step) -> Result<u64, NoMemory>
        requires event { is_event step.now ≡ true }
        requires apart { IsFalse (is_piece step.now && is_open self.old.talk) }
        ensures ok { OnOk result ((bytes : List ℕ) (answers : List Asked)
            → self.new ≡ step_engine at step.now bytes answers self.old) }
        ensures parts { IfOk result (λ n. n ≡ parts_of (is_part step.now self.old)) }
        ensures err { OnErr result (self.new ≡ rule_at at starve self.old) }
        ensures refused { OnErr result (is_part step.now self.old ≡ true) }
    {
        match step {
            Step::Linked => self.take_link(at),
            Step::LinkFailed => Ok(self.take_refusal(at)),
            Step::End => Ok(self.take_loss(at, IoFault::Aborted)),
            Step::Fault => Ok(self.take_loss(at, IoFault::Reset)),
            Step::Piece(_) | Step::Room => {
                self.session.advance(at);
                Ok(0)
            }
            Step::Tick | Step::Command(_) => unreachable!(),
        }
    }

    fn take_link(&mut self, at: u64) -> Result<u64, NoMemory>
        ensures ok { OnOk result (self.new ≡ step_linked at self.old) }
        ensures parts { IfOk result (λ n. n ≡ parts_of (is_asked self.old.talk)) }
        ensures err { OnErr result (self.new ≡ rule_at at starve self.old) }
        ensures refused { OnErr result (is_asked self.old.talk ≡ true) }
    {
        if !self.session.is_asked() {
            self.session.advance(at);
            return Ok(0);
        }
        if self.session.linked(at).is_err() {
            return Err(NoMemory);
        }
        self.unread.reset();
        self.place = 0;
        self.unsent.reset();
        Ok(1)
    }

    // The link that was asked for is refused.
    fn take_refusal(&mut self, at: u64) -> u64
        ensures engine { self.new ≡ settle (rule_at at link_failed self.old) }
        ensures parts { result ≡ parts_of (is_asked self.old.talk) }
    {
        let asked = self.session.is_asked();
        self.session.link_failed(at);
        self.settle();
        asked as u64
    }

    // The open link is lost.
    fn take_loss(&mut self, at: u64, fault: IoFault) -> u64
        ensures engine { self.new ≡ settle (rule_at at (lost fault) self.old) }
        ensures parts { result ≡ parts_of (is_open self.old.talk) }
    {
        let open = self.session.is_open();
        self.session.lost(fault, at);
        self.settle();
        open as u64
    }

    // Time goes by.
    fn take_tick<A: AuthProvider>(
        &mut self,
        at: u64,
        provider: &mut A,
        auths: &mut AuthList,
    ) -> Result<u64, NoMemory>
        requires { A.can provider.old }
        ensures can { A.can provider.new }
        ensures ok { OnOk result (StepHears at Step.Tick self.old self.new
            (A.allows provider.old) (A.allows provider.new) auths.old.list auths.new.list) }
        ensures parts { IfOk result (λ n. n ≡ 1) }
        ensures err { OnErr result (self.new ≡ rule_at at starve self.old) }
        ensures unanswered { OnErr result (Unanswered (λ answers. step_questions at Step.Tick answers self.old)
            (A.allows provider.old) auths.old.list auths.new.list) }
        ensures never_falls { A.refusals provider.old ≤ A.refusals provider.new }
    {
        if let Err(refused) = self.session.tick(at, provider, auths) {
            drop(refused);
            return Err(NoMemory);
        }
        self.settle();
        Ok(1)
    }

    fn take_command(&mut self, at: u64, command: Cmd) -> Result<u64, NoMemory>
        ensures ok { OnOk result (self.new ≡ rule_at at (command_rule command) self.old) }
        ensures parts { IfOk result (λ n. n ≡ 1) }
        ensures err { OnErr result (self.new ≡ rule_at at starve self.old) }
    {
        self.session.advance(at);
        if self.session.command(command).is_err() {
            self.session.starve(at);
            return Err(NoMemory);
        }
        Ok(1)
    }

    // A piece is read on the open link. As many of its bytes as there is room for join the unread
    // ones, and the frames that then stand whole are read, and so on with the bytes that are left.
    // Where what is received is no longer kept, they go.
    fn read_piece<A: AuthProvider>(
        &mut self,
        at: u64,
        piece: &[u8],
        provider: &mut A,
        auths: &mut AuthList,
        parts: &mut u64,
    ) -> Result<(), NoMemory>
        requires opened { IsTrue (is_open self.old.talk) }
        requires can { A.can provider.old }
        ensures can { A.can provider.new }
        ensures ok { OnOk result (Heard (λ answers questions. (cut : Option ℕ) (more : List Asked)
            → Reaches cut parts.new
            → reading true (making at cut (answers ++ more) [] (step_piece at piece.now self.old) 1)
            ≡ making at cut more questions self.new parts.new)
            (A.allows provider.old) (A.allows provider.new) auths.old.list auths.new.list) }
        ensures err { OnErr result (Broke parts.new (λ answers questions next e.
            (starve_at at parts.new self.new ≡ starve_at at parts.new e) × BreaksAt at next e
            × (reading true (making at (Some parts.new) answers [] (step_piece at piece.now self.old) 1)
            ≡ making at (Some parts.new) (drop (length questions) answers) questions e parts.new))
            (A.allows provider.old) auths.old.list auths.new.list) }
        ensures some { 1 ≤ parts.new }
        ensures bound { FewParts parts.new }
        ensures starved { self.new.starved ≡ self.old.starved }
        ensures never_falls { A.refusals provider.old ≤ A.refusals provider.new }
        ensures blames { Blames self.old.talk self.new.talk (A.refusals provider.old) (A.refusals provider.new) }
    {
        self.session.piece(at);
        self.settle();
        *parts = 1;
        // So few bytes are unread that the frames can be counted.
        let _ = self.session.capacity();
        let mut joined = 0;
        'parts: loop {
            joined += self.join(&piece[joined..]);
            self.read_all(at, provider, auths, parts)?;
            if joined == piece.len() {
                return Ok(());
            }
        }
    }

    // As many of these bytes as there is room for join the unread ones, where they are kept; else
    // all go. Says how many.
    fn join(&mut self, bytes: &[u8]) -> usize
        requires { IsSettled self.old }
        ensures within { result ≤ length bytes.now }
        ensures engine { self.new ≡ piece_joined (take result bytes.now) self.old }
        ensures over { keeps_unread self.old.talk ≡ false → result ≡ length bytes.now }
        ensures some { can_read self.old ≡ false → 1 ≤ length bytes.now → 1 ≤ result }
        ensures small { length self.new.unread < 2 ^ 32 }
    {
        // Both buffers have the capacity, which is small.
        let _ = self.session.capacity();
        if !self.session.is_open() || self.session.drops_input() {
            return bytes.len();
        }
        self.unread.write(bytes)
    }

    // Reads frames while there is one, and counts them as parts. It is the same whatever is still to
    // join the unread bytes, and whatever the provider is still to answer.
    fn read_all<A: AuthProvider>(
        &mut self,
        at: u64,
        provider: &mut A,
        auths: &mut AuthList,
        parts: &mut u64,
    ) -> Result<(), NoMemory>
        requires settled { IsSettled self.old }
        requires few { parts.old + length self.old.unread < 2 ^ 63 }
        requires can { A.can provider.old }
        ensures can { A.can provider.new }
        ensures ok { OnOk result (Heard (λ answers questions. (rest : List ℕ) (cut : Option ℕ) (more : List Asked)
            (before : List Question) → Reaches cut parts.new
            → reading true (making at cut (answers ++ more) before (piece_joined rest self.old) parts.old)
            ≡ reading true (making at cut more (before ++ questions) (piece_joined rest self.new) parts.new))
            (A.allows provider.old) (A.allows provider.new) auths.old.list auths.new.list) }
        ensures done { OnOk result (can_read self.new ≡ false) }
        ensures settled { OnOk result (IsSettled self.new) }
        ensures err { OnErr result (Broke parts.new (λ answers questions next e. (self.new ≡ rule_at at starve e)
            × IsSettled e × BreaksAt at next e × ((rest : List ℕ) (before : List Question)
            → reading true (making at (Some parts.new) answers before (piece_joined rest self.old) parts.old)
            ≡ making at (Some parts.new) (drop (length questions) answers) (before ++ questions) (piece_joined rest e)
            parts.new))
            (A.allows provider.old) auths.old.list auths.new.list) }
        ensures size { OnOk result (keeps_unread self.new.talk ≡ true
            → 8 * parts.new + length self.new.unread ≤ 8 * parts.old + length self.old.unread) }
        ensures bound { 8 * parts.new ≤ 8 * parts.old + length self.old.unread + 8 }
        ensures grows { parts.old ≤ parts.new }
        ensures starved { self.new.starved ≡ self.old.starved }
        ensures never_falls { A.refusals provider.old ≤ A.refusals provider.new }
        ensures blames { Blames self.old.talk self.new.talk (A.refusals provider.old) (A.refusals provider.new) }
    {
        'frames: while self.read_next(at, provider, auths)? {
            *parts += 1;
        }
        Ok(())
    }

    // Reads a frame, or what can be none, and says whether there was one.
    fn read_next<A: AuthProvider>(
        &mut self,
        at: u64,
        provider: &mut A,
        auths: &mut AuthList,
    ) -> Result<bool, NoMemory>
        requires { A.can provider.old }
        ensures can { A.can provider.new }
        ensures some { IfOk result (λ b. b ≡ can_read self.old) }
        ensures ok { IfOk result (λ b. b ≡ true → RowHears at (front_of self.old) self.old self.new
            (A.allows provider.old) (A.allows provider.new) auths.old.list auths.new.list) }
        ensures none { IfOk result (λ b. b ≡ false → (self.new ≡ self.old) × (auths.new ≡ auths.old)
            × (provider.new ≡ provider.old)) }
        ensures err { OnErr result (self.new ≡ rule_at at starve self.old) }
        ensures unanswered { OnErr result (Unanswered (λ _. read_questions at self.old)
            (A.allows provider.old) auths.old.list auths.new.list) }
        ensures refused { OnErr result (can_read self.old ≡ true) }
        ensures never_falls { A.refusals provider.old ≤ A.refusals provider.new }
        ensures blames { Blames self.old.talk self.new.talk (A.refusals provider.old) (A.refusals provider.new) }
    {
        if !self.session.is_open() {
            return Ok(false);
        }
        let received = self.unread.parsing_context();
        match read_frame(self.alloc, &received, self.session.frame_limit() as u32) {
            Read::Whole(frame, n) => self.read_whole(at, frame, n, provider, auths),
            other => {
                let found = self.read_other(at, &other);
                drop(other);
                found
            }
        }
    }

    // A frame is read, of so many bytes.
    fn read_whole<A: AuthProvider>(
        &mut self,
        at: u64,
        frame: Frame,
        n: usize,
        provider: &mut A,
        auths: &mut AuthList,
    ) -> Result<bool, NoMemory>
        requires open { IsTrue (is_open self.old.talk) }
        requires within { n ≤ length self.old.unread }
        requires can { A.can provider.old }
        ensures can { A.can provider.new }
        ensures some { IfOk result (λ b. b ≡ true) }
        ensures ok { OnOk result (RowHears at (reads.Whole frame n) self.old self.new
            (A.allows provider.old) (A.allows provider.new) auths.old.list auths.new.list) }
        ensures err { OnErr result (self.new ≡ rule_at at starve self.old) }
        ensures unanswered { OnErr result (Unanswered (λ _. row_questions at (reads.Whole frame n) self.old)
            (A.allows provider.old) auths.old.list auths.new.list) }
        ensures never_falls { A.refusals provider.old ≤ A.refusals provider.new }
        ensures blames { Blames self.old.talk self.new.talk (A.refusals provider.old) (A.refusals provider.new) }
    {
        let capacity = self.session.capacity_after(&frame) as usize;
        if capacity > self.session.capacity() as usize {
            return self.read_growing(at, frame, n, capacity, provider, auths);
        }
        if let Err(refused) = self.session.frame(frame, at, provider, auths) {
            drop(refused);
            return Err(NoMemory);
        }
        self.step_over(n);
        Ok(true)
    }

    // The same of a frame that makes the capacity greater. Both buffers are copied before, and the
    // copies take their place once it was read, since memory may be refused for what it makes.
    fn read_growing<A: AuthProvider>(
        &mut self,
        at: u64,
        frame: Frame,
        n: usize,
        capacity: usize,
        provider: &mut A,
        auths: &mut AuthList,
    ) -> Result<bool, NoMemory>
        requires open { IsTrue (is_open self.old.talk) }
        requires within { n ≤ length self.old.unread }
        requires after { (answers : List Asked)
            → capacity ≡ (on_frame frame answers (present_at at self.old.talk)).capacity }
        requires grows { self.old.talk.capacity ≤ capacity }
        requires can { A.can provider.old }
        ensures can { A.can provider.new }
        ensures some { IfOk result (λ b. b ≡ true) }
        ensures ok { OnOk result (RowHears at (reads.Whole frame n) self.old self.new
            (A.allows provider.old) (A.allows provider.new) auths.old.list auths.new.list) }
        ensures err { OnErr result (self.new ≡ rule_at at starve self.old) }
        ensures unanswered { OnErr result (Unanswered (λ _. row_questions at (reads.Whole frame n) self.old)
            (A.allows provider.old) auths.old.list auths.new.list) }
        ensures never_falls { A.refusals provider.old ≤ A.refusals provider.new }
        ensures blames { Blames self.old.talk self.new.talk (A.refusals provider.old) (A.refusals provider.new) }
    {
        let (unread, unsent) = match self.copies(capacity) {
            Ok(both) => both,
            Err(refused) => {
                drop(frame);
                self.session.starve(at);
                return Err(refused);
            }
        };
        if let Err(refused) = self.session.frame(frame, at, provider, auths) {
            drop(refused);
            return Err(NoMemory);
        }
        self.unread = unread;
        self.unsent = unsent;
        self.step_over(n);
        Ok(true)
    }

    // Both buffers with what they keep, of so many bytes each.
    fn copies(&self, capacity: usize) -> Result<(Buffer, Buffer), NoMemory>
        requires { self.now.talk.capacity ≤ capacity }
        ensures unread { IfOk result (λ both. (both.0.kept ≡ self.now.unread) × (room both.0 ≡ capacity)) }
        ensures unsent { IfOk result (λ both. (both.1.kept ≡ self.now.unsent) × (room both.1 ≡ capacity)) }
    {
        let unread = copy(self.alloc, &self.unread, capacity)?;
        let unsent = copy(self.alloc, &self.unsent, capacity)?;
        Ok((unread, unsent))
    }

    // So many of the unread bytes were read.
    fn step_over(&mut self, n: usize)
        requires { n ≤ length self.old.unread }
        ensures { self.new
            ≡ settle (record self.old { unread = drop n self.old.unread; place = at_most_64 (self.old.place + n) }) }
    {
        let rest = self.unread.parsing_context().take_from(n);
        let read = self.unread.offset(rest);
        self.unread.consume(read);
        self.place = self.place.saturating_add(n as u64);
        self.settle();
    }

    // What stands at the front is no whole frame.
    fn read_other(&mut self, at: u64, read: &Read) -> Result<bool, NoMemory>
        requires { is_whole read.now ≡ false }
        ensures some { IfOk result (λ b. b ≡ not (is_more read.now)) }
        ensures ok { IfOk result (λ b. (answers : List Asked)
            → self.new ≡ (if b then read_row at read.now answers self.old else self.old)) }
        ensures err { OnErr result (self.new ≡ rule_at at starve self.old) }
        ensures some_read { OnErr result (is_more read.now ≡ false) }
        ensures held { OnOk result (read.now ≢ reads.NoMemory) }
    {
        match read {
            Read::More => return Ok(false),
            Read::NoMemory => {
                self.session.starve(at);
                return Err(NoMemory);
            }
            Read::TooLarge(size) => self.read_badly(at, Misread::TooLarge(*size))?,
            Read::BadHeartbeat(id) => self.read_badly(at, Misread::BadHeartbeat(*id))?,
            Read::Bad => self.read_badly(at, Misread::Bad(self.place))?,
            Read::Whole(..) => unreachable!(),
        }
        Ok(true)
    }

    // What was read is no frame.
    fn read_badly(&mut self, at: u64, why: Misread) -> Result<(), NoMemory>
        ensures ok { OnOk result (self.new ≡ read_badly at why self.old) }
        ensures err { OnErr result (self.new ≡ rule_at at starve self.old) }
    {
        if self.session.misread(why, at).is_err() {
            return Err(NoMemory);
        }
        self.settle();
        Ok(())
    }

    // Where the link is not open, nothing is left of what was received on it or is unsent; and where
    // its input is dropped, nothing is unread.
    pub(super) fn settle(&mut self)
        ensures { self.new ≡ settle self.old }
    {
        if !self.session.is_open() {
            self.unread.reset();
            self.place = 0;
            self.unsent.reset();
        } else if self.session.drops_input() {
            self.unread.reset();
            self.place = 0;
        }
    }
}
