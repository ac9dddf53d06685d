//! The methods of the connection class.

ghost use Rattle.std.specs.Prelude.{◌≡◌, Ok, IsTrue, IsOk, OnOk, OnErr};
ghost use Rattle.amqp_rules.specs.Talk.{is_open, acts};
ghost use Rattle.amqp_rules.specs.Changes.{queue};
ghost use Rattle.amqp_rules.specs.Memory.{MakesNothing};
ghost use Rattle.amqp_session.specs.Provided.{login_answers};
ghost use Rattle.amqp_rules.specs.Sound.{is_agreed};
ghost use Rattle.amqp_rules.specs.ConnectionMethods.{started, challenged, on_start, on_secure, on_tune, connected, on_open_ok, on_connection_close, on_connection_close_ok, on_update_secret_ok, connection_rule};

use super::Session;
use super::asking::Login;
use super::reopening::{reopen, reserve_reopening};
use amqp_answers::{Answer, Event};
use amqp_frame::{Frame, Method};
use amqp_outbox::{Item, Reply};
use amqp_promise::ConnectionState::{Closing, Connected, Connecting};
use amqp_promise::ErrorKind;
use amqp_rules::Input;
use amqp_rules::Phase::{AwaitOpenOk, AwaitStart, AwaitTune};
use amqp_settings::handshake::{close_ok, open_vhost, secure_ok, start_ok, tune_ok};
use amqp_settings::{Configuration, tune};
use amqp_types::{ChannelId, LongString, NoMemory, ReplyCode, ShortString, Text};
use amqp_violations::closed_with;

impl Session {
    pub(super) fn connection_rule(
        &mut self,
        method: Method,
        login: Option<Login>,
    ) -> Result<(), NoMemory>
        requires { IsTrue (acts self.old) }
        ensures ok { OnOk result (self.new
            ≡ connection_rule self.old.state self.old.phase method (login_answers login) self.old) }
        ensures err { OnErr result (self.new ≡ self.old) }
        ensures idle { MakesNothing self.old
            (connection_rule self.old.state self.old.phase method (login_answers login) self.old) → IsOk result }
    {
        match (self.state, self.phase, method) {
            (_, _, Method::Close(code, text, _, _)) => self.on_connection_close(code, text),
            (_, _, Method::Blocked(reason)) => {
                let done = self.on_blocked(&reason);
                drop(reason);
                done
            }
            (_, _, Method::Unblocked) => self.on_unblocked(),
            (Closing, _, Method::CloseOk) => {
                self.on_connection_close_ok();
                Ok(())
            }
            // What else comes after our close is dropped.
            (Closing, _, _) => Ok(()),
            (Connecting, AwaitStart, Method::Start(..)) => self.on_start(login),
            (Connecting, AwaitTune, Method::Secure(_)) => self.on_secure(login),
            (Connecting, AwaitTune, Method::Tune(channel_max, frame_max, heartbeat)) => {
                self.on_tune(Configuration {
                    channel_max,
                    frame_max,
                    heartbeat,
                })
            }
            (Connecting, AwaitOpenOk, Method::OpenOk) => self.on_open_ok(),
            (Connected, _, Method::UpdateSecretOk) => {
                self.on_update_secret_ok();
                Ok(())
            }
            (held, _, _) => {
                self.lose(ErrorKind::InvalidConnectionState(held));
                Ok(())
            }
        }
    }

    // A frame of a channel, which answers no promise, goes last in the control lane.
    pub(super) fn queue(&mut self, id: ChannelId, frame: Frame) -> Result<(), NoMemory>
        ensures ok { OnOk result (self.new ≡ queue id frame self.old) }
        ensures err { OnErr result (self.new ≡ self.old) }
    {
        self.outgoing.say(Item::plain(id, frame))
    }

    fn on_start(&mut self, login: Option<Login>) -> Result<(), NoMemory>
        requires { IsTrue (acts self.old) }
        ensures ok { OnOk result (self.new ≡ on_start (login_answers login) self.old) }
        ensures err { OnErr result (self.new ≡ self.old) }
        ensures idle { MakesNothing self.old (on_start (login_answers login) self.old) → IsOk result }
    {
        match login {
            Some(Login::Started(mechanism, said)) => self.started(mechanism, said),
            // Made for another frame: never.
            other => {
                drop(other);
                Ok(())
            }
        }
    }

    // By this mechanism the client says this first, or was refused to.
    fn started(
        &mut self,
        mechanism: ShortString,
        said: Result<LongString, Text>,
    ) -> Result<(), NoMemory>
        ensures ok { OnOk result (self.new ≡ started mechanism said self.old) }
        ensures err { OnErr result (self.new ≡ self.old) }
        ensures idle { MakesNothing self.old (started mechanism said self.old) → IsOk result }
    {
        match said {
            Ok(response) => self.log_in(mechanism, response),
            Err(text) => {
                drop(mechanism);
                self.lose(ErrorKind::AuthProviderError(text));
                Ok(())
            }
        }
    }

    // The client names itself and logs in.
    fn log_in(&mut self, mechanism: ShortString, response: LongString) -> Result<(), NoMemory>
        ensures ok { OnOk result (self.new ≡ started mechanism (Ok response) self.old) }
        ensures err { OnErr result (self.new ≡ self.old) }
    {
        let frame = start_ok(self.alloc, &self.options, mechanism, response)?;
        self.queue(0, frame)?;
        self.phase = AwaitTune;
        Ok(())
    }

    fn on_secure(&mut self, login: Option<Login>) -> Result<(), NoMemory>
        requires { IsTrue (acts self.old) }
        ensures ok { OnOk result (self.new ≡ on_secure (login_answers login) self.old) }
        ensures err { OnErr result (self.new ≡ self.old) }
        ensures idle { MakesNothing self.old (on_secure (login_answers login) self.old) → IsOk result }
    {
        match login {
            Some(Login::Challenged(said)) => self.challenged(said),
            // Made for another frame: never.
            other => {
                drop(other);
                Ok(())
            }
        }
    }

    // To the challenge this is said, or the provider refused it.
    fn challenged(&mut self, said: Result<LongString, Text>) -> Result<(), NoMemory>
        ensures ok { OnOk result (self.new ≡ challenged said self.old) }
        ensures err { OnErr result (self.new ≡ self.old) }
        ensures idle { MakesNothing self.old (challenged said self.old) → IsOk result }
    {
        match said {
            Ok(response) => self.queue(0, secure_ok(response)),
            Err(text) => {
                self.lose(ErrorKind::AuthProviderError(text));
                Ok(())
            }
        }
    }

    fn on_tune(&mut self, server: Configuration) -> Result<(), NoMemory>
        ensures ok { OnOk result (self.new ≡ on_tune server self.old) }
        ensures err { OnErr result (self.new ≡ self.old) }
    {
        let agreed = tune(self.configuration, server);
        let open = Item::plain(0, open_vhost(self.alloc, &self.uri.vhost)?);
        let tune_ok = Item::plain(0, tune_ok(agreed));
        self.outgoing.say_both(tune_ok, open)?;
        self.configuration = agreed;
        self.phase = AwaitOpenOk;
        Ok(())
    }

    // The channels that were kept are opened again, but those whose numbers are no longer agreed go.
    fn on_open_ok(&mut self) -> Result<(), NoMemory>
        requires { IsTrue (is_agreed self.old.state self.old.phase) }
        ensures ok { OnOk result (self.new ≡ on_open_ok self.old) }
        ensures err { OnErr result (self.new ≡ self.old) }
        ensures idle { MakesNothing self.old (on_open_ok self.old) → IsOk result }
    {
        let channel_max = self.configuration.channel_max;
        self.events.reserve()?;
        reserve_reopening(&mut self.outgoing, &self.channels, channel_max)?;
        self.events.note_reserved(Event::Connected);
        reopen(&mut self.outgoing, &self.channels, channel_max);
        self.channels.remove_above(channel_max);
        self.connected();
        Ok(())
    }

    // The connection is open, and its promise is answered. That is told elsewhere.
    fn connected(&mut self)
        requires { IsTrue (is_agreed self.old.state self.old.phase) }
        ensures { self.new ≡ record (connected self.old) { noted = self.old.noted } }
    {
        self.give(0, Answer::Connected);
        self.capacity = self.capacity.grown(self.configuration.frame_max);
        self.state = Connected;
        self.secret_at = self.present;
        self.tried = 0;
    }

    fn on_update_secret_ok(&mut self)
        ensures { self.new ≡ on_update_secret_ok self.old }
    {
        match self.outgoing.answer(0, Reply::SecretDone) {
            Some(Some(number)) => self.give(number, Answer::Done),
            Some(None) => {
                self.secret_at = self.present;
                self.refreshing = false;
            }
            None => self.lose(ErrorKind::InvalidConnectionState(Connected)),
        }
    }

    fn on_connection_close(&mut self, code: ReplyCode, text: ShortString) -> Result<(), NoMemory>
        requires { IsTrue (is_open self.old) }
        ensures ok { OnOk result (self.new ≡ on_connection_close code text self.old) }
        ensures err { OnErr result (self.new ≡ self.old) }
    {
        let told = closed_with(code, text)?;
        self.outgoing.say_only(Item::plain(0, close_ok()))?;
        self.server_close = Some(told);
        let crossed = self.state == Closing;
        self.input = Input::Closed { crossed };
        self.state = Closing;
        Ok(())
    }

    fn on_connection_close_ok(&mut self)
        ensures { self.new ≡ on_connection_close_ok self.old }
    {
        if let Some(promise) = self.outgoing.answer(0, Reply::ConnectionClosed) {
            self.give_to(promise, Answer::Done);
        }
        self.close();
    }
}
