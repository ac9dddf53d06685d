//! What a client says to log in.

ghost use Rattle.std.specs.Prelude.{◌≡◌, ◌<◌, ◌+◌, ◌^◌, ◌++◌, ◌∷◌, length, codes, IfOk, OnOk};
ghost use Rattle.amqp_uri.specs.Login.{sasl_text, challenge_text, login_text, plain_text, amqplain_text};
ghost use Rattle.amqp_uri.specs.Parts.{spell_field};

use crate::mechanism::SASLMechanism;
use amqp_types::{LongString, NoMemory};
use std::alloc::Global;
use std::fmt;
use std::marker::Model;

/// A user and a password, as SASL mechanisms speak of them. Its `Debug` shows neither.
#[derive(Drop)]
pub struct Credentials {
    username: LongString,
    password: LongString,
}

impl Model for Credentials {
    ghost use Rattle.std.specs.Prelude.{◌+◌, ◌<◌, ◌^◌, length};
    ghost use Rattle.amqp_uri.specs.Login.{Login};

    ghost Value = { Login };

    ghost view = { λ c. record { username = c.username; password = c.password } };

    ghost invariant = { λ c. length c.username + length c.password < 2 ^ 31 };
}

impl fmt::Debug for Credentials {
    ghost use Rattle.std.specs.Prelude.{Some, codes};

    ghost debug_output = { λ _. Some (codes "Credentials { .. }") };

    fn fmt<W: fmt::Write>(&self, f: &mut fmt::Formatter<W>) -> fmt::Result {
        f.write_str("Credentials { .. }")
    }
}

impl Credentials {
    /// The user and the password, which are moved in. They are so short that every text made of them
    /// is a long string.
    pub fn new(username: LongString, password: LongString) -> Credentials
        requires { length username + length password < 2147483648 }
        ensures { result ≡ record { username = username; password = password } }
    {
        Credentials { username, password }
    }

    /// What a client sends by this mechanism to begin with: by `Plain` 00, the user, 00 and the
    /// password (RFC 4616); by `AMQPlain` the pairs LOGIN and PASSWORD of a field table, without the
    /// table's length; by `RabbitCrDemo` the user, and the password follows once a challenge came; by
    /// `External` and `Anonymous` nothing.
    pub fn sasl_auth_string(
        &self,
        alloc: Global,
        mechanism: SASLMechanism,
    ) -> Result<LongString, NoMemory>
        ensures { IfOk result (λ text. text ≡ sasl_text mechanism self.now) }
    {
        match mechanism {
            SASLMechanism::Plain => self.plain(alloc),
            SASLMechanism::AMQPlain => self.amqplain(alloc),
            SASLMechanism::External | SASLMechanism::Anonymous => {
                Ok(LongString::from_vec(Vec::new(alloc)))
            }
            SASLMechanism::RabbitCrDemo => self.username.try_clone(alloc),
        }
    }

    fn plain(&self, alloc: Global) -> Result<LongString, NoMemory>
        ensures { IfOk result (λ text. text ≡ plain_text self.now) }
    {
        let mut text = Vec::new(alloc);
        text.push(0)?;
        text.extend_from_slice(self.username.as_bytes())?;
        text.push(0)?;
        text.extend_from_slice(self.password.as_bytes())?;
        Ok(LongString::from_vec(text))
    }

    fn amqplain(&self, alloc: Global) -> Result<LongString, NoMemory>
        ensures { IfOk result (λ text. text ≡ amqplain_text self.now) }
    {
        let mut text = Vec::new(alloc);
        put_pair(&mut text, b"LOGIN", &self.username)?;
        put_pair(&mut text, b"PASSWORD", &self.password)?;
        Ok(LongString::from_vec(text))
    }

    /// The challenge of RABBIT-CR-DEMO, by which a server asks for the password.
    pub fn rabbit_cr_demo_challenge(&self) -> &'static str
        ensures { result.now ≡ challenge_text }
    {
        "Please tell me your password"
    }

    /// The answer to the challenge of RABBIT-CR-DEMO.
    pub fn rabbit_cr_demo_answer(&self, alloc: Global) -> Result<LongString, NoMemory>
        ensures { IfOk result (λ text. text ≡ login_text self.now) }
    {
        let mut text = Vec::from_slice(alloc, b"My password is ")?;
        text.extend_from_slice(self.password.as_bytes())?;
        Ok(LongString::from_vec(text))
    }
}

// A name as a short string, the tag of a long string, and the long string.
fn put_pair(text: &mut Vec<u8>, name: &[u8], value: &LongString) -> Result<(), NoMemory>
    requires { length name.now < 256 }
    ensures { OnOk result (text.new.items ≡ text.old.items ++ spell_field name.now value.now) }
{
    text.push(name.len() as u8)?;
    text.extend_from_slice(name)?;
    text.push(b'S')?;
    text.extend_from_slice(&(value.len() as u32).to_be_bytes())?;
    text.extend_from_slice(value.as_bytes())?;
    Ok(())
}
