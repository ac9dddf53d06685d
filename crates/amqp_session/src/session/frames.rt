//! The frames that are read.

ghost use Rattle.std.specs.Prelude.{◌≡◌, ◌≤◌, if◌then◌else◌, [], Some, Err, IsTrue, IsOk, IfErr, OnOk, OnErr};
ghost use Rattle.amqp_rules.specs.Talk.{is_open, acts, hears_on, end_of};
ghost use Rattle.amqp_rules.specs.Changes.{present_at, starve, misplaced};
ghost use Rattle.amqp_rules.specs.Memory.{MakesNothing};
ghost use Rattle.amqp_violations.specs.Violations.{stray_connection_method, stray_channel_frame};
ghost use Rattle.amqp_frame.specs.Methods.{is_of_a_channel};
ghost use Rattle.amqp_rules.specs.Frames.{closed_rule, method_rule, frame_rule, on_frame, questions_in, frame_questions};
ghost use Rattle.amqp_rules.specs.Asking.{Hears, Starves};
ghost use Rattle.amqp_types.specs.Counts.{Rose};
ghost use Rattle.amqp_session.specs.Provided.{login_answers};

use super::Session;
use super::asking::Login;
use amqp_auth::{AuthList, AuthProvider};
use amqp_frame::{Frame, Method, RawKind};
use amqp_promise::{ConnectionState, ErrorKind};
use amqp_types::{ChannelId, NoMemory, Text};
use amqp_violations::{stray_channel_frame, stray_connection_method};

impl Session {
    /// A frame was read. What it asks is asked of the provider, whose answers are put last into the
    /// list.
    pub fn frame<A: AuthProvider>(
        &mut self,
        frame: Frame,
        at: u64,
        provider: &mut A,
        auths: &mut AuthList,
    ) -> amqp_promise::Result<()>
        requires { A.can provider.old }
        ensures can { A.can provider.new }
        ensures ok { OnOk result (Hears (on_frame frame) (λ _. frame_questions frame)
            (A.allows provider.old) (A.allows provider.new) (present_at at self.old) self.new
            auths.old.list auths.new.list) }
        ensures err { OnErr result (self.new ≡ starve (present_at at self.old)) }
        ensures unanswered { OnErr result (Starves (λ _. frame_questions frame) (A.allows provider.old)
            (present_at at self.old) auths.old.list auths.new.list) }
        ensures only { IfErr result (λ e. e ≡ ErrorKind.NoMemory) }
        ensures idle { let now = present_at at self.old in
            frame_questions frame now ≡ [] → MakesNothing now (on_frame frame [] now) → IsOk result }
        ensures counted { (text : Text) → IsTrue (acts self.old)
            → end_of self.new ≡ Some (Err (ErrorKind.AuthProviderError text))
            → Rose (A.refusals provider.old) (A.refusals provider.new) }
        ensures never_falls { A.refusals provider.old ≤ A.refusals provider.new }
    {
        self.advance(at);
        if !self.acts() {
            return match self.hear_closed(frame) {
                Ok(()) => Ok(()),
                Err(refused) => Err(self.starved(refused)),
            };
        }
        match self.hear(frame, provider, auths) {
            Ok(()) => Ok(()),
            Err(refused) => Err(self.starved(refused)),
        }
    }

    // What the frame asks is asked, and then its rule is done.
    fn hear<A: AuthProvider>(
        &mut self,
        frame: Frame,
        provider: &mut A,
        auths: &mut AuthList,
    ) -> Result<(), NoMemory>
        requires acts { IsTrue (acts self.old) }
        requires can { A.can provider.old }
        ensures can { A.can provider.new }
        ensures ok { OnOk result (Hears (frame_rule frame) (λ _. questions_in frame)
            (A.allows provider.old) (A.allows provider.new) self.old self.new auths.old.list auths.new.list) }
        ensures err { OnErr result (self.new ≡ self.old) }
        ensures unanswered { OnErr result (Starves (λ _. questions_in frame) (A.allows provider.old)
            self.old auths.old.list auths.new.list) }
        ensures idle { questions_in frame self.old ≡ [] → MakesNothing self.old (frame_rule frame [] self.old)
            → IsOk result }
        ensures counted { OnOk result ((text : Text) → end_of self.new ≡ Some (Err (ErrorKind.AuthProviderError text))
            → Rose (A.refusals provider.old) (A.refusals provider.new)) }
        ensures never_falls { A.refusals provider.old ≤ A.refusals provider.new }
    {
        match self.ask(&frame, provider, auths) {
            Ok(login) => self.frame_rule(frame, login),
            Err(refused) => {
                drop(frame);
                Err(refused)
            }
        }
    }

    // After the server's close only blocked and unblocked act.
    fn hear_closed(&mut self, frame: Frame) -> Result<(), NoMemory>
        ensures ok { OnOk result (self.new
            ≡ (if hears_on self.old then closed_rule frame self.old else self.old)) }
        ensures err { OnErr result (self.new ≡ self.old) }
        ensures idle { MakesNothing self.old (if hears_on self.old then closed_rule frame self.old else self.old)
            → IsOk result }
    {
        let done = if self.hears_on() {
            self.closed_rule(&frame)
        } else {
            Ok(())
        };
        drop(frame);
        done
    }

    fn closed_rule(&mut self, frame: &Frame) -> Result<(), NoMemory>
        ensures ok { OnOk result (self.new ≡ closed_rule frame.now self.old) }
        ensures err { OnErr result (self.new ≡ self.old) }
        ensures idle { MakesNothing self.old (closed_rule frame.now self.old) → IsOk result }
    {
        match frame {
            Frame::Method(0, Method::Blocked(reason)) => self.on_blocked(reason),
            Frame::Method(0, Method::Unblocked) => self.on_unblocked(),
            _ => Ok(()),
        }
    }

    fn frame_rule(&mut self, frame: Frame, login: Option<Login>) -> Result<(), NoMemory>
        requires { IsTrue (acts self.old) }
        ensures ok { OnOk result (self.new ≡ frame_rule frame (login_answers login) self.old) }
        ensures err { OnErr result (self.new ≡ self.old) }
        ensures idle { MakesNothing self.old (frame_rule frame (login_answers login) self.old) → IsOk result }
    {
        match frame {
            Frame::ProtocolHeader(version) => {
                self.lose(ErrorKind::InvalidProtocolVersion(version));
                Ok(())
            }
            Frame::Heartbeat => Ok(()),
            Frame::Method(id, method) => self.method_rule(id, method, login),
            Frame::Raw(0, kind, _) => self.stray_channel_frame(kind),
            Frame::Raw(id, kind, bytes) => self.raw_frame(id, kind, bytes),
        }
    }

    fn method_rule(
        &mut self,
        id: ChannelId,
        method: Method,
        login: Option<Login>,
    ) -> Result<(), NoMemory>
        requires { IsTrue (acts self.old) }
        ensures ok { OnOk result (self.new ≡ method_rule id method (login_answers login) self.old) }
        ensures err { OnErr result (self.new ≡ self.old) }
        ensures idle { MakesNothing self.old (method_rule id method (login_answers login) self.old) → IsOk result }
    {
        match (id, is_of_a_channel(&method)) {
            (0, true) => {
                drop(method);
                self.stray_channel_frame(RawKind::RawMethod)
            }
            (0, false) => self.connection_rule(method, login),
            (_, true) => {
                let done = self.channel_method(id, &method);
                drop(method);
                done
            }
            (_, false) => {
                drop(method);
                self.stray_connection_method(id)
            }
        }
    }

    // A frame of a channel does not stand on channel 0.
    fn stray_channel_frame(&mut self, kind: RawKind) -> Result<(), NoMemory>
        requires { IsTrue (is_open self.old) }
        ensures ok { OnOk result (self.new ≡ misplaced (stray_channel_frame kind) self.old) }
        ensures err { OnErr result (self.new ≡ self.old) }
        ensures idle { MakesNothing self.old (misplaced (stray_channel_frame kind) self.old) → IsOk result }
    {
        if self.state != ConnectionState::Closing {
            let error = stray_channel_frame(self.alloc, kind)?;
            self.lose(error);
        }
        Ok(())
    }

    // A method of the connection class stands on channel 0 alone.
    fn stray_connection_method(&mut self, id: ChannelId) -> Result<(), NoMemory>
        requires { IsTrue (is_open self.old) }
        ensures ok { OnOk result (self.new ≡ misplaced (stray_connection_method id) self.old) }
        ensures err { OnErr result (self.new ≡ self.old) }
        ensures idle { MakesNothing self.old (misplaced (stray_connection_method id) self.old) → IsOk result }
    {
        if self.state != ConnectionState::Closing {
            let error = stray_connection_method(self.alloc, id)?;
            self.lose(error);
        }
        Ok(())
    }
}

// The methods of the channel class.
fn is_of_a_channel(method: &Method) -> bool
    ensures { result ≡ is_of_a_channel method.now }
{
    matches!(
        method,
        Method::ChannelOpen
            | Method::ChannelOpenOk
            | Method::ChannelFlow(_)
            | Method::ChannelFlowOk(_)
            | Method::ChannelClose(..)
            | Method::ChannelCloseOk
    )
}
