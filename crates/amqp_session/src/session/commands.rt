//! The commands.

ghost use Rattle.std.specs.Prelude.{◌≡◌, ◌≢◌, ◌<◌, ◌≤◌, ◌+◌, ◌∷◌, ℕ, [], length, map, Some, Ok, IfOk, IfErr, IfSome, IfNone, OnOk, OnErr};
ghost use Rattle.amqp_frame.specs.Frames.{encoding};
ghost use Rattle.amqp_frame.specs.Lengths.{capped};
ghost use Rattle.amqp_outbox.specs.Queued.{unsent_octets};
ghost use Rattle.amqp_types.specs.declared.word.Word.TheVariants as word;
ghost use Rattle.amqp_rules.specs.Channels.{channel_at};
ghost use Rattle.amqp_rules.specs.Changes.{refuse};
ghost use Rattle.amqp_commands.specs.Publishing.{body_pieces};
ghost use Rattle.amqp_rules.specs.Commands.{open_channel, open_as, named, target, close_channel, close_target, above_limit, too_full, unless_full, queue_send, send, send_target, body_limit, queue_publish, publish, publish_target, tell_flow, flow_target, queue_secret, update_secret, close_connection, drop_target, promise_of, command};

use super::Session;
use super::dropping::{drop_groups, drop_groups_of};
use amqp_channels::Channel;
use amqp_commands::{ChanRef, Cmd, Properties, content_header, publish_frames, publish_len};
use amqp_frame::{Frame, RawKind, RawMethod, encoded_len};
use amqp_outbox::{Awaited, Group, Item, Reply};
use amqp_promise::{ChannelState, ConnectionState, ErrorKind};
use amqp_settings::handshake::{
    channel_flow, channel_open, new_secret, ok_text, our_channel_close, our_close,
};
use amqp_types::{ChannelId, LongString, NoMemory, Payload, ReplyCode, ShortString, Word};

// So many octets, where they are more than the limit, if one is set.
fn above_limit(limit: Option<u64>, octets: u64) -> Option<u64>
    ensures { result ≡ above_limit limit octets }
{
    match limit {
        Some(limit) if octets > limit => Some(octets),
        _ => None,
    }
}

impl Session {
    /// Does what it is told or refuses it, and gives the number of the promise that will be answered,
    /// where the command takes one.
    pub fn command(&mut self, cmd: Cmd) -> amqp_promise::Result<Option<u64>>
        ensures ok { OnOk result (self.new ≡ command cmd self.old) }
        ensures number { IfOk result (λ number. number ≡ promise_of cmd self.old) }
        ensures err { OnErr result (self.new ≡ self.old) }
        ensures only { IfErr result (λ e. e ≡ ErrorKind.NoMemory) }
    {
        let number = self.promise_of(&cmd);
        if self.state == ConnectionState::Connected {
            self.command_connected(cmd)?;
        } else {
            self.command_unconnected(cmd)?;
        }
        Ok(number)
    }

    // The number of the promise that a command takes.
    fn promise_of(&self, cmd: &Cmd) -> Option<u64>
        ensures { result ≡ promise_of cmd.now self.now }
    {
        match cmd {
            Cmd::DropChannel(_) | Cmd::DropConnection | Cmd::Listen => None,
            _ => Some(self.promises()),
        }
    }

    fn command_connected(&mut self, cmd: Cmd) -> Result<(), NoMemory>
        requires { self.old.state ≡ ConnectionState.Connected }
        ensures ok { OnOk result (self.new ≡ command cmd self.old) }
        ensures err { OnErr result (self.new ≡ self.old) }
    {
        match cmd {
            Cmd::OpenChannel => self.open_channel(),
            Cmd::CloseChannel(channel, code, text) => self.close_named(channel, code, text),
            Cmd::CloseConnection(code, text) => self.close_connection(code, text),
            Cmd::UpdateSecret(secret, reason) => self.update_secret(secret, reason),
            Cmd::Send(channel, method) => self.send_named(channel, method),
            Cmd::Publish(channel, method, properties, body) => {
                self.publish_named(channel, method, properties, body)
            }
            Cmd::Flow(channel, active) => self.flow_named(channel, active),
            Cmd::DropChannel(channel) => self.drop_named(channel),
            Cmd::DropConnection => self.drop_connection(),
            Cmd::Listen => {
                self.listen();
                Ok(())
            }
        }
    }

    // Nothing is left to be let go, and what takes a promise is refused.
    fn command_unconnected(&mut self, cmd: Cmd) -> Result<(), NoMemory>
        requires { self.old.state ≢ ConnectionState.Connected }
        ensures ok { OnOk result (self.new ≡ command cmd self.old) }
        ensures err { OnErr result (self.new ≡ self.old) }
    {
        match cmd {
            Cmd::DropChannel(_) | Cmd::DropConnection => Ok(()),
            Cmd::Listen => {
                self.listen();
                Ok(())
            }
            cmd => {
                drop(cmd);
                self.refuse(ErrorKind::InvalidConnectionState(self.state))
            }
        }
    }

    // A channel is let go: where it is open, it is closed.
    fn drop_named(&mut self, channel: ChanRef) -> Result<(), NoMemory>
        requires { self.old.state ≡ ConnectionState.Connected }
        ensures ok { OnOk result (self.new ≡ command (Cmd.DropChannel channel) self.old) }
        ensures err { OnErr result (self.new ≡ self.old) }
    {
        match self.target(channel, Word::ChannelClose) {
            Ok(listed) => self.drop_channel(channel.id, listed),
            Err(_) => Ok(()),
        }
    }

    // The connection is let go: where it is open, it is closed.
    fn drop_connection(&mut self) -> Result<(), NoMemory>
        requires { self.old.state ≡ ConnectionState.Connected }
        ensures ok { OnOk result (self.new ≡ command Cmd.DropConnection self.old) }
        ensures err { OnErr result (self.new ≡ self.old) }
    {
        let awaited = Awaited {
            reply: Reply::ConnectionClosed,
            promise: None,
        };
        let close = Item::plain(0, our_close(200, ok_text(self.alloc)?));
        self.outgoing.ask(close, awaited)?;
        self.channels.close_all();
        self.state = ConnectionState::Closing;
        drop_groups(&mut self.outgoing, &mut self.promises);
        Ok(())
    }

    // An open channel is let go.
    fn drop_channel(&mut self, id: ChannelId, channel: Channel) -> Result<(), NoMemory>
        requires { channel_at id self.old ≡ Some channel }
        ensures ok { OnOk result (self.new ≡ drop_target (Ok channel) id self.old) }
        ensures err { OnErr result (self.new ≡ self.old) }
    {
        let awaited = Awaited {
            reply: Reply::ChannelClosed,
            promise: None,
        };
        let close = Item::plain(id, our_channel_close(id, 200, ok_text(self.alloc)?));
        self.outgoing.ask(close, awaited)?;
        self.channels.set(id, channel.leaving());
        drop_groups_of(&mut self.outgoing, &mut self.promises, id);
        Ok(())
    }

    fn refuse(&mut self, kind: ErrorKind) -> Result<(), NoMemory>
        ensures ok { OnOk result (self.new ≡ refuse kind self.old) }
        ensures err { OnErr result (self.new ≡ self.old) }
    {
        self.promises.refuse(kind)
    }

    // The listed channel that is named.
    pub(super) fn named(&self, channel: ChanRef) -> Option<Channel>
        ensures named { result ≡ named channel self.now }
        ensures listed { IfSome result (λ c. channel_at channel.id self.now ≡ Some c) }
    {
        let listed = self.channels.get(channel.id)?;
        match channel.opened {
            Some(opened) if opened != listed.opened => None,
            _ => Some(listed),
        }
    }

    fn open_channel(&mut self) -> Result<(), NoMemory>
        ensures ok { OnOk result (self.new ≡ open_channel self.old) }
        ensures err { OnErr result (self.new ≡ self.old) }
    {
        let channel_max = self.configuration.channel_max;
        match self.channels.next_free(channel_max) {
            Some(id) => self.open_as(id)?,
            None => {
                self.refuse(ErrorKind::ChannelsLimitReached)?;
                self.channels.pass_over(channel_max);
            }
        }
        Ok(())
    }

    // Opens the channel whose number was drawn.
    fn open_as(&mut self, id: ChannelId) -> Result<(), NoMemory>
        requires { channel_at id self.old ≡ None }
        ensures ok { OnOk result (self.new ≡ open_as id self.old) }
        ensures err { OnErr result (self.new ≡ self.old) }
    {
        let item = Item::plain(id, channel_open(id));
        if let Err(refused) = self.promises.reserve() {
            drop(item);
            return Err(refused);
        }
        if let Err(refused) = self.outgoing.reserve_question(&item, Reply::ChannelOpened) {
            drop(item);
            return Err(refused);
        }
        let number = self.promises.made();
        let channel = Channel::opening(number);
        let channel_max = self.configuration.channel_max;
        if let Err(refused) = self.channels.list_next(channel_max, id, channel) {
            drop(item);
            return Err(refused);
        }
        self.outgoing.say_reserved(item);
        self.outgoing
            .expect_reserved(id, Awaited::by(Reply::ChannelOpened, number));
        self.promises.promise_reserved();
        Ok(())
    }

    fn close_named(
        &mut self,
        channel: ChanRef,
        code: ReplyCode,
        text: ShortString,
    ) -> Result<(), NoMemory>
        ensures ok { OnOk result (self.new ≡
            close_target (target channel word.ChannelClose self.old) channel.id code text self.old) }
        ensures err { OnErr result (self.new ≡ self.old) }
    {
        match self.target(channel, Word::ChannelClose) {
            Ok(listed) => self.close_channel(channel.id, code, text, listed),
            Err(kind) => {
                drop(text);
                self.refuse(kind)
            }
        }
    }

    // The channel that something is told of, where it is listed and open; else why that is refused.
    fn target(&self, channel: ChanRef, word: Word) -> Result<Channel, ErrorKind>
        ensures target { result ≡ target channel word self.now }
        ensures listed { IfOk result (λ c. channel_at channel.id self.now ≡ Some c) }
    {
        let Some(listed) = self.named(channel) else {
            return Err(ErrorKind::InvalidChannel(channel.id));
        };
        match listed.state {
            ChannelState::Connected => Ok(listed),
            held => Err(ErrorKind::InvalidChannelState(held, word)),
        }
    }

    fn close_channel(
        &mut self,
        id: ChannelId,
        code: ReplyCode,
        text: ShortString,
        channel: Channel,
    ) -> Result<(), NoMemory>
        requires { channel_at id self.old ≡ Some channel }
        ensures ok { OnOk result (self.new ≡ close_channel id code text channel self.old) }
        ensures err { OnErr result (self.new ≡ self.old) }
    {
        if let Err(refused) = self.promises.reserve() {
            drop(text);
            return Err(refused);
        }
        let awaited = Awaited::by(Reply::ChannelClosed, self.promises.made());
        let close = Item::plain(id, our_channel_close(id, code, text));
        self.outgoing.ask(close, awaited)?;
        self.channels.set(id, channel.leaving());
        drop_groups_of(&mut self.outgoing, &mut self.promises, id);
        self.promises.promise_reserved();
        Ok(())
    }

    fn send_named(&mut self, channel: ChanRef, method: RawMethod) -> Result<(), NoMemory>
        ensures ok { OnOk result (self.new ≡
            send_target (target channel word.Send self.old) channel.id method self.old) }
        ensures err { OnErr result (self.new ≡ self.old) }
    {
        match self.target(channel, Word::Send) {
            Ok(_) => self.send(channel.id, method),
            Err(kind) => {
                drop(method);
                self.refuse(kind)
            }
        }
    }

    fn send(&mut self, id: ChannelId, method: RawMethod) -> Result<(), NoMemory>
        ensures ok { OnOk result (self.new ≡ send id method self.old) }
        ensures err { OnErr result (self.new ≡ self.old) }
    {
        let frame = Frame::Raw(id, RawKind::RawMethod, method.into_payload());
        match self.excess(&frame) {
            Some(size) => {
                drop(frame);
                self.refuse(ErrorKind::SerialisationError(size))
            }
            None => self.send_within(id, frame),
        }
    }

    // A frame that is not too long is sent, unless too many octets would wait.
    fn send_within(&mut self, id: ChannelId, frame: Frame) -> Result<(), NoMemory>
        ensures ok { OnOk result (self.new ≡
            unless_full (too_full (frame ∷ []) self.old) (queue_send id frame) self.old) }
        ensures err { OnErr result (self.new ≡ self.old) }
    {
        match self.overflow(encoded_len(&frame)) {
            Some(octets) => {
                drop(frame);
                self.refuse(ErrorKind::OutboxFull(octets))
            }
            None => self.queue_send(id, frame),
        }
    }

    /// How many octets would wait with so many more, where they are more than the limit that was set. No
    /// number is greater than the greatest of its type.
    pub fn overflow(&self, more: u64) -> Option<u64>
        ensures { (octets : ℕ) → more ≡ capped octets → result ≡
            above_limit self.now.config.options.outbox_limit (capped (unsent_octets self.now.outbox + octets)) }
    {
        let octets = self.outgoing.waiting_len().saturating_add(more);
        above_limit(self.options.outbox_limit(), octets)
    }

    // How many octets spell a frame, where it is longer than the capacity.
    pub(super) fn excess(&self, frame: &Frame) -> Option<u64>
        ensures long { IfSome result (λ size. (size ≡ capped (length (encoding frame.now)))
            × (self.now.capacity < length (encoding frame.now))) }
        ensures fits { IfNone result (length (encoding frame.now) ≤ self.now.capacity) }
    {
        let size = encoded_len(frame);
        if size > self.capacity.octets() {
            Some(size)
        } else {
            None
        }
    }

    // A frame is queued, whose promise waits until it is sent.
    fn queue_send(&mut self, id: ChannelId, frame: Frame) -> Result<(), NoMemory>
        ensures ok { OnOk result (self.new ≡ queue_send id frame self.old) }
        ensures err { OnErr result (self.new ≡ self.old) }
    {
        if let Err(refused) = self.promises.reserve() {
            drop(frame);
            return Err(refused);
        }
        let item = Item::promised(id, frame, self.promises.made());
        self.outgoing.say(item)?;
        self.promises.promise_reserved();
        Ok(())
    }

    fn publish_named(
        &mut self,
        channel: ChanRef,
        method: RawMethod,
        properties: Properties,
        body: Payload,
    ) -> Result<(), NoMemory>
        requires { self.old.state ≡ ConnectionState.Connected }
        ensures ok { OnOk result (self.new ≡
            publish_target (target channel word.Publish self.old) channel.id method properties body self.old) }
        ensures err { OnErr result (self.new ≡ self.old) }
    {
        match self.target(channel, Word::Publish) {
            Ok(_) => self.publish(channel.id, method, &properties, &body),
            Err(kind) => {
                drop(method);
                self.refuse(kind)
            }
        }
    }

    // The method, its content header and its body, which is copied once, when it is cut.
    fn publish(
        &mut self,
        id: ChannelId,
        method: RawMethod,
        properties: &Properties,
        body: &Payload,
    ) -> Result<(), NoMemory>
        requires { self.old.state ≡ ConnectionState.Connected }
        ensures ok { OnOk result (self.new ≡ publish id method properties.now body.now self.old) }
        ensures err { OnErr result (self.new ≡ self.old) }
    {
        let head = content_header(self.alloc, method.class_id(), body.len(), properties)?;
        let method = Frame::Raw(id, RawKind::RawMethod, method.into_payload());
        let header = Frame::Raw(id, RawKind::Header, head);
        // Its clause says that the capacity has room for the least frame.
        let _ = self.capacity.octets();
        match self.excess(&method).or(self.excess(&header)) {
            Some(size) => {
                drop(method);
                drop(header);
                self.refuse(ErrorKind::SerialisationError(size))
            }
            None => self.publish_within(id, method, header, body.as_bytes()),
        }
    }

    // Frames that are not too long are published, unless too many octets would wait. That is known before
    // the body is cut.
    fn publish_within(
        &mut self,
        id: ChannelId,
        method: Frame,
        header: Frame,
        body: &[u8],
    ) -> Result<(), NoMemory>
        requires { self.old.state ≡ ConnectionState.Connected }
        ensures ok { let frames = method ∷ header
            ∷ map (Frame.Raw id RawKind.Body) (body_pieces (body_limit self.old) body.now) in
            OnOk result (self.new ≡ unless_full (too_full frames self.old) (queue_publish id frames) self.old) }
        ensures err { OnErr result (self.new ≡ self.old) }
    {
        let more = publish_len(&method, &header, self.body_limit(), body);
        match self.overflow(more) {
            Some(octets) => {
                drop(method);
                drop(header);
                self.refuse(ErrorKind::OutboxFull(octets))
            }
            None => self.queue_publish(id, method, header, body),
        }
    }

    // The frames are queued as one group, whose promise waits until the last is sent.
    fn queue_publish(
        &mut self,
        id: ChannelId,
        method: Frame,
        header: Frame,
        body: &[u8],
    ) -> Result<(), NoMemory>
        requires { self.old.state ≡ ConnectionState.Connected }
        ensures ok { OnOk result (self.new ≡ queue_publish id
            (method ∷ header ∷ map (Frame.Raw id RawKind.Body) (body_pieces (body_limit self.old) body.now)) self.old) }
        ensures err { OnErr result (self.new ≡ self.old) }
    {
        let limit = self.body_limit();
        let frames = publish_frames(self.alloc, id, method, header, limit, body)?;
        let group = Group::new(self.alloc, id, frames, self.promises.made())?;
        if let Err(refused) = self.promises.reserve() {
            drop(group);
            return Err(refused);
        }
        self.outgoing.say_group(group)?;
        self.promises.promise_reserved();
        Ok(())
    }

    // How many octets of a body one frame takes.
    fn body_limit(&self) -> usize
        requires { self.now.state ≡ ConnectionState.Connected }
        ensures limit { result ≡ body_limit self.now }
        ensures positive { 1 ≤ result }
    {
        self.frame_limit() as usize - 8
    }

    fn flow_named(&mut self, channel: ChanRef, active: bool) -> Result<(), NoMemory>
        ensures ok { OnOk result (self.new ≡
            flow_target (target channel word.ChannelFlow self.old) channel.id active self.old) }
        ensures err { OnErr result (self.new ≡ self.old) }
    {
        match self.target(channel, Word::ChannelFlow) {
            Ok(_) => self.tell_flow(channel.id, active),
            Err(kind) => self.refuse(kind),
        }
    }

    // The server is told to start or to stop sending content on a channel.
    fn tell_flow(&mut self, id: ChannelId, active: bool) -> Result<(), NoMemory>
        ensures ok { OnOk result (self.new ≡ tell_flow id active self.old) }
        ensures err { OnErr result (self.new ≡ self.old) }
    {
        self.promises.reserve()?;
        let awaited = Awaited::by(Reply::FlowDone, self.promises.made());
        let flow = Item::plain(id, channel_flow(id, active));
        self.outgoing.ask(flow, awaited)?;
        self.promises.promise_reserved();
        Ok(())
    }

    // The server is told a new secret.
    fn update_secret(&mut self, secret: LongString, reason: ShortString) -> Result<(), NoMemory>
        ensures ok { OnOk result (self.new ≡ update_secret secret reason self.old) }
        ensures err { OnErr result (self.new ≡ self.old) }
    {
        let frame = new_secret(secret, reason);
        match self.excess(&frame) {
            Some(size) => {
                drop(frame);
                self.refuse(ErrorKind::SerialisationError(size))
            }
            None => self.queue_secret(frame),
        }
    }

    // A new secret is queued, whose promise waits until the server took it.
    fn queue_secret(&mut self, frame: Frame) -> Result<(), NoMemory>
        ensures ok { OnOk result (self.new ≡ queue_secret frame self.old) }
        ensures err { OnErr result (self.new ≡ self.old) }
    {
        if let Err(refused) = self.promises.reserve() {
            drop(frame);
            return Err(refused);
        }
        let awaited = Awaited::by(Reply::SecretDone, self.promises.made());
        let item = Item::plain(0, frame);
        self.outgoing.ask(item, awaited)?;
        self.promises.promise_reserved();
        Ok(())
    }

    fn close_connection(&mut self, code: ReplyCode, text: ShortString) -> Result<(), NoMemory>
        requires { self.old.state ≡ ConnectionState.Connected }
        ensures ok { OnOk result (self.new ≡ close_connection code text self.old) }
        ensures err { OnErr result (self.new ≡ self.old) }
    {
        if let Err(refused) = self.promises.reserve() {
            drop(text);
            return Err(refused);
        }
        let awaited = Awaited::by(Reply::ConnectionClosed, self.promises.made());
        let close = Item::plain(0, our_close(code, text));
        self.outgoing.ask(close, awaited)?;
        self.channels.close_all();
        self.state = ConnectionState::Closing;
        drop_groups(&mut self.outgoing, &mut self.promises);
        self.promises.promise_reserved();
        Ok(())
    }
}
