//! The SASL mechanisms.

ghost use Rattle.std.specs.Prelude.{◌≡◌};
ghost use Rattle.amqp_uri.specs.Mechanisms.{name_of, mechanism_named};

/// How a client shows who it is.
#[derive(Clone, Copy, Debug, Default, PartialEq, Eq)]
pub enum SASLMechanism {
    /// User and password as they are.
    #[default]
    Plain,
    /// User and password as the pairs of a field table.
    AMQPlain,
    /// By means outside of AMQP, as a certificate.
    External,
    /// Nobody in particular.
    Anonymous,
    /// RabbitMQ's mechanism with a challenge, which is made to try challenges out.
    RabbitCrDemo,
}

impl SASLMechanism {
    /// The name by which a server offers the mechanism, and by which a client chooses it.
    pub fn name(self) -> &'static str
        ensures { result.now ≡ name_of self }
    {
        match self {
            SASLMechanism::Plain => "PLAIN",
            SASLMechanism::AMQPlain => "AMQPLAIN",
            SASLMechanism::External => "EXTERNAL",
            SASLMechanism::Anonymous => "ANONYMOUS",
            SASLMechanism::RabbitCrDemo => "RABBIT-CR-DEMO",
        }
    }

    // The mechanism that an address names, without regard to ASCII case.
    pub(crate) fn named(value: &str) -> Option<SASLMechanism>
        ensures { result ≡ mechanism_named value.now }
    {
        if value.eq_ignore_ascii_case("plain") {
            Some(SASLMechanism::Plain)
        } else if value.eq_ignore_ascii_case("amqplain") {
            Some(SASLMechanism::AMQPlain)
        } else if value.eq_ignore_ascii_case("external") {
            Some(SASLMechanism::External)
        } else if value.eq_ignore_ascii_case("anonymous") {
            Some(SASLMechanism::Anonymous)
        } else if value.eq_ignore_ascii_case("rabbit-cr-demo") {
            Some(SASLMechanism::RabbitCrDemo)
        } else {
            None
        }
    }
}
