//! What comes on a channel.

ghost use Rattle.std.specs.Prelude.{◌≡◌, Some, IfSome, IsOk, IsTrue, OnOk, OnErr};
ghost use Rattle.amqp_rules.specs.Talk.{is_open};
ghost use Rattle.amqp_rules.specs.Memory.{MakesNothing};
ghost use Rattle.amqp_rules.specs.Channels.{channel_at};
ghost use Rattle.amqp_violations.specs.Violations.{channel_closed_with};
ghost use Rattle.amqp_rules.specs.ChannelMethods.{heard_on, unawaited_channel_method, on_channel_open_ok, on_channel_close_ok, on_channel_close, closed_by_server, crossing_close, on_channel_flow, on_channel_flow_ok, channel_rule, channel_method, is_select_ok, pass_through, raw_frame};

use super::Session;
use super::dropping::{drop_channel_of, drop_replies_of};
use super::places::reserve_owing;
use amqp_answers::{Answer, Event, Handed};
use amqp_channels::{Channel, Debt};
use amqp_frame::{Method, RawKind};
use amqp_outbox::{Item, Reply};
use amqp_promise::{ChannelState, ConnectionState, ErrorKind};
use amqp_settings::handshake::{channel_close_ok, flow_ok};
use amqp_types::{ChannelId, NoMemory, Payload, ReplyCode, ShortString};
use amqp_violations::{channel_closed_with, channel_error, unawaited};

impl Session {
    // The listed channel that a frame comes on.
    fn heard_on(&self, id: ChannelId) -> Option<Channel>
        ensures heard { result ≡ heard_on self.now.state (channel_at id self.now) }
        ensures listed { IfSome result (λ c. channel_at id self.now ≡ Some c) }
    {
        if self.state == ConnectionState::Connecting {
            return None;
        }
        self.channels.get(id)
    }

    // A method of the channel class.
    pub(super) fn channel_method(&mut self, id: ChannelId, method: &Method) -> Result<(), NoMemory>
        requires { IsTrue (is_open self.old) }
        ensures ok { OnOk result (self.new ≡ channel_method id method.now self.old) }
        ensures err { OnErr result (self.new ≡ self.old) }
        ensures idle { MakesNothing self.old (channel_method id method.now self.old) → IsOk result }
    {
        match self.heard_on(id) {
            Some(channel) => self.channel_rule(id, channel, method),
            None => {
                self.misplaced(ErrorKind::InvalidChannel(id));
                Ok(())
            }
        }
    }

    fn channel_rule(
        &mut self,
        id: ChannelId,
        channel: Channel,
        method: &Method,
    ) -> Result<(), NoMemory>
        requires listed { channel_at id self.old ≡ Some channel }
        requires open { IsTrue (is_open self.old) }
        ensures ok { OnOk result (self.new ≡ channel_rule self.old.state id channel method.now self.old) }
        ensures err { OnErr result (self.new ≡ self.old) }
        ensures idle { MakesNothing self.old (channel_rule self.old.state id channel method.now self.old)
            → IsOk result }
    {
        // After our close of the connection it is dropped.
        if self.state == ConnectionState::Closing {
            return Ok(());
        }
        match method {
            Method::ChannelOpenOk => self.on_channel_open_ok(id, channel),
            Method::ChannelCloseOk => self.on_channel_close_ok(id, channel),
            Method::ChannelClose(code, text, _, _) => self.on_channel_close(
                id, channel, *code, text,
            ),
            Method::ChannelFlow(active) => self.on_channel_flow(id, channel, *active),
            Method::ChannelFlowOk(active) => self.on_channel_flow_ok(id, channel, *active),
            _ => self.unawaited_channel_method(id, channel.state, method),
        }
    }

    // A method that nothing awaits.
    fn unawaited_channel_method(
        &mut self,
        id: ChannelId,
        held: ChannelState,
        method: &Method,
    ) -> Result<(), NoMemory>
        requires { IsTrue (is_open self.old) }
        ensures ok { OnOk result (self.new ≡ unawaited_channel_method id held method.now self.old) }
        ensures err { OnErr result (self.new ≡ self.old) }
        ensures idle { MakesNothing self.old (unawaited_channel_method id held method.now self.old) → IsOk result }
    {
        if held != ChannelState::Closing {
            let error = unawaited(self.alloc, method, id)?;
            self.lose(error);
        }
        Ok(())
    }

    fn on_channel_open_ok(&mut self, id: ChannelId, channel: Channel) -> Result<(), NoMemory>
        requires listed { channel_at id self.old ≡ Some channel }
        requires open { IsTrue (is_open self.old) }
        ensures ok { OnOk result (self.new ≡ on_channel_open_ok id channel self.old) }
        ensures err { OnErr result (self.new ≡ self.old) }
        ensures idle { MakesNothing self.old (on_channel_open_ok id channel self.old) → IsOk result }
    {
        let Some(promise) = self.outgoing.answer(id, Reply::ChannelOpened) else {
            return self.unawaited_channel_method(id, channel.state, &Method::ChannelOpenOk);
        };
        let open = Channel {
            state: ChannelState::Connected,
            ..channel
        };
        self.channels.set(id, open);
        let answer = Answer::Channel(id, channel.opened);
        self.give_to(promise, answer);
        Ok(())
    }

    fn on_channel_close_ok(&mut self, id: ChannelId, channel: Channel) -> Result<(), NoMemory>
        requires listed { channel_at id self.old ≡ Some channel }
        requires open { IsTrue (is_open self.old) }
        ensures ok { OnOk result (self.new ≡ on_channel_close_ok id channel self.old) }
        ensures err { OnErr result (self.new ≡ self.old) }
        ensures idle { MakesNothing self.old (on_channel_close_ok id channel self.old) → IsOk result }
    {
        let Some(promise) = self.outgoing.answer(id, Reply::ChannelClosed) else {
            return self.unawaited_channel_method(id, channel.state, &Method::ChannelCloseOk);
        };
        self.give_to(promise, Answer::Done);
        drop_replies_of(&mut self.outgoing, &mut self.promises, id);
        if channel.debt == Debt::Owed {
            self.channels.set(id, channel.answered());
        } else {
            self.channels.remove(id);
        }
        Ok(())
    }

    // The server's close of a channel, which is answered once.
    fn on_channel_close(
        &mut self,
        id: ChannelId,
        channel: Channel,
        code: ReplyCode,
        text: &ShortString,
    ) -> Result<(), NoMemory>
        requires listed { channel_at id self.old ≡ Some channel }
        ensures ok { OnOk result (self.new ≡ on_channel_close id code text.now channel self.old) }
        ensures err { OnErr result (self.new ≡ self.old) }
        ensures idle { MakesNothing self.old (on_channel_close id code text.now channel self.old) → IsOk result }
    {
        match channel.debt {
            Debt::Nothing if channel.awaits_close_ok => {
                self.crossing_close(id, channel, code, text)
            }
            Debt::Nothing => self.closed_by_server(id, channel, code, text),
            _ => Ok(()),
        }
    }

    // The server closes a channel that we closed.
    fn crossing_close(
        &mut self,
        id: ChannelId,
        channel: Channel,
        code: ReplyCode,
        text: &ShortString,
    ) -> Result<(), NoMemory>
        requires { channel_at id self.old ≡ Some channel }
        ensures ok { OnOk result (self.new
            ≡ crossing_close id (channel_closed_with code text.now) channel self.old) }
        ensures err { OnErr result (self.new ≡ self.old) }
    {
        let error = channel_error(self.alloc, code, text)?;
        let item = Item::plain(id, channel_close_ok(id));
        if let Err(refused) = reserve_owing(&mut self.outgoing, &mut self.events, &item, error) {
            drop(item);
            return Err(refused);
        }
        let owing = Channel {
            debt: Debt::Owed,
            ..channel
        };
        self.channels.set(id, owing);
        self.outgoing.say_reserved(item);
        Ok(())
    }

    // The server closes a channel that we use.
    fn closed_by_server(
        &mut self,
        id: ChannelId,
        channel: Channel,
        code: ReplyCode,
        text: &ShortString,
    ) -> Result<(), NoMemory>
        requires { channel_at id self.old ≡ Some channel }
        ensures ok { OnOk result (self.new
            ≡ closed_by_server id (channel_closed_with code text.now) channel self.old) }
        ensures err { OnErr result (self.new ≡ self.old) }
        ensures idle { channel.debt ≡ Debt.Nothing
            → MakesNothing self.old (closed_by_server id (channel_closed_with code text.now) channel self.old)
            → IsOk result }
    {
        let error = channel_error(self.alloc, code, text)?;
        let why = self
            .promises
            .why(channel_closed_with(self.alloc, code, text)?)?;
        let item = Item::plain(id, channel_close_ok(id));
        if let Err(refused) = reserve_owing(&mut self.outgoing, &mut self.events, &item, error) {
            drop(item);
            self.promises.let_go(why);
            return Err(refused);
        }
        let owing = Channel {
            debt: Debt::Owed,
            ..channel.closing()
        };
        self.channels.set(id, owing);
        drop_channel_of(&mut self.outgoing, &mut self.promises, id, &why);
        self.promises.let_go(why);
        self.outgoing.say_reserved(item);
        Ok(())
    }

    fn on_channel_flow(
        &mut self,
        id: ChannelId,
        channel: Channel,
        active: bool,
    ) -> Result<(), NoMemory>
        requires listed { channel_at id self.old ≡ Some channel }
        ensures ok { OnOk result (self.new ≡ on_channel_flow channel.state id channel active self.old) }
        ensures err { OnErr result (self.new ≡ self.old) }
        ensures idle { MakesNothing self.old (on_channel_flow channel.state id channel active self.old) → IsOk result }
    {
        if channel.state == ChannelState::Closing {
            return Ok(());
        }
        self.events.reserve()?;
        let item = Item::plain(id, flow_ok(id, active));
        self.outgoing.say(item)?;
        let flowing = Channel {
            flow: active,
            ..channel
        };
        self.channels.set(id, flowing);
        self.events.note_reserved(Event::SendFlow(active));
        Ok(())
    }

    fn on_channel_flow_ok(
        &mut self,
        id: ChannelId,
        channel: Channel,
        active: bool,
    ) -> Result<(), NoMemory>
        requires { IsTrue (is_open self.old) }
        ensures ok { OnOk result (self.new ≡ on_channel_flow_ok id channel active self.old) }
        ensures err { OnErr result (self.new ≡ self.old) }
        ensures idle { MakesNothing self.old (on_channel_flow_ok id channel active self.old) → IsOk result }
    {
        let Some(promise) = self.outgoing.answer(id, Reply::FlowDone) else {
            return self.unawaited_channel_method(id, channel.state, &Method::ChannelFlowOk(active));
        };
        self.give_to(promise, Answer::Flow(active));
        Ok(())
    }

    // A frame that is passed through.
    pub(super) fn raw_frame(
        &mut self,
        id: ChannelId,
        kind: RawKind,
        bytes: Payload,
    ) -> Result<(), NoMemory>
        ensures ok { OnOk result (self.new ≡ raw_frame id kind bytes self.old) }
        ensures err { OnErr result (self.new ≡ self.old) }
        ensures idle { MakesNothing self.old (raw_frame id kind bytes self.old) → IsOk result }
    {
        match self.heard_on(id) {
            Some(channel) => self.pass_through(id, channel, kind, bytes),
            None => {
                drop(bytes);
                self.misplaced(ErrorKind::InvalidChannel(id));
                Ok(())
            }
        }
    }

    fn pass_through(
        &mut self,
        id: ChannelId,
        channel: Channel,
        kind: RawKind,
        bytes: Payload,
    ) -> Result<(), NoMemory>
        requires { channel_at id self.old ≡ Some channel }
        ensures ok { OnOk result (self.new ≡ pass_through id channel kind bytes self.old) }
        ensures err { OnErr result (self.new ≡ self.old) }
    {
        let confirms = is_select_ok(kind, bytes.as_bytes());
        self.backlog.hand_out(
            channel.opened,
            Handed {
                channel: id,
                kind,
                bytes,
            },
        )?;
        if confirms {
            let confirmed = Channel {
                confirm: true,
                ..channel
            };
            self.channels.set(id, confirmed);
        }
        Ok(())
    }
}

// Whether a frame is confirm.select-ok.
fn is_select_ok(kind: RawKind, bytes: &[u8]) -> bool
    ensures { result ≡ is_select_ok kind bytes.now }
{
    match kind {
        RawKind::RawMethod => bytes.starts_with(&[0, 85, 0, 11]),
        _ => false,
    }
}
