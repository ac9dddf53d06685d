//! Laws on the methods that a server says.

ghost use Rattle.std.specs.Prelude.{◌≡◌, ℕ, List, Some};
ghost use Rattle.amqp_methods.specs.Properties.{Fields, Fit, spell_fields, properties_in};
ghost use Rattle.amqp_types.specs.Forms.{IsOctets};
ghost use Rattle.amqp_methods.specs.declared.heard.Deliver.{Deliver};
ghost use Rattle.amqp_methods.specs.declared.heard.Ack.{Ack};
ghost use Rattle.amqp_methods.specs.declared.heard.Nack.{Nack};
ghost use Rattle.amqp_methods.specs.Heard.{DeliverOf, AckOf, NackOf, deliver_in, ack_in, nack_in};

/// Every spelling of a method is read as that method. A law, which needs no memory and does nothing.
pub fn what_is_heard_is_read()
    ensures deliver { (d : Deliver) (payload : List ℕ) → DeliverOf d payload → deliver_in payload ≡ Some d }
    ensures ack { (a : Ack) (payload : List ℕ) → AckOf a payload → ack_in payload ≡ Some a }
    ensures nack { (n : Nack) (payload : List ℕ) → NackOf n payload → nack_in payload ≡ Some n }
{}

/// What is read of octets as a method is spelled by them. A law, which needs no memory and does nothing.
pub fn what_is_read_was_spelled()
    ensures deliver { (d : Deliver) (payload : List ℕ) → IsOctets payload → deliver_in payload ≡ Some d
        → DeliverOf d payload }
    ensures ack { (a : Ack) (payload : List ℕ) → IsOctets payload → ack_in payload ≡ Some a → AckOf a payload }
    ensures nack { (n : Nack) (payload : List ℕ) → IsOctets payload → nack_in payload ≡ Some n → NackOf n payload }
{}

/// What properties are spelled as is read as these, and what is read of octets as properties is spelled by them.
/// A law, which needs no memory and does nothing.
pub fn properties_are_read_as_they_are_spelled()
    ensures read { (f : Fields) → Fit f → properties_in (spell_fields f) ≡ Some f }
    ensures spelled { (f : Fields) (octets : List ℕ) → IsOctets octets → properties_in octets ≡ Some f
        → octets ≡ spell_fields f }
    ensures fit { (f : Fields) (octets : List ℕ) → IsOctets octets → properties_in octets ≡ Some f → Fit f }
{}
