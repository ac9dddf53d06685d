//! The properties of a message, as a content header carries them.

ghost use Rattle.std.specs.Prelude.{◌≡◌, ◌<◌, ◌≤◌, ◌+◌, ◌*◌, ◌++◌, true, IfOk, IfSome, option_map, if◌then◌else◌};
ghost use Rattle.std.specs.Int.{w64};
ghost use Rattle.amqp_types.specs.Forms.{spell_short_string, spell_long_string};
ghost use Rattle.amqp_types.specs.Reading.{octet_at, number_at, short_string_at, long_string_at};
ghost use Rattle.amqp_methods.specs.Heard.{ReadsOff};
ghost use Rattle.amqp_methods.specs.Properties.{spell_present, spell_octet, spell_number, spell_first, spell_second, spelled_properties};
ghost use Rattle.amqp_methods.specs.Properties.{field_at, first_at, second_at, properties_in};
ghost use Rattle.amqp_methods.specs.Properties.{no_fields, fields_of, flags_of, bit, is_short_enough, first_fit, second_fit};

use crate::rest::Rest;
use amqp_types::NoMemory;
use std::alloc::Global;

/// The fourteen properties of class basic. A text has at most 255 octets, and the headers less than 2 ^ 32.
#[derive(Clone, Copy)]
pub struct BasicProperties<'a> {
    /// What kind of body it is, as a MIME type.
    pub content_type: Option<&'a [u8]>,
    /// How the body is encoded.
    pub content_encoding: Option<&'a [u8]>,
    /// The octets of a table of headers, without the four of its length.
    pub headers: Option<&'a [u8]>,
    /// 1 where it may be gone with the broker, 2 where it is to outlast it.
    pub delivery_mode: Option<u8>,
    /// Its priority in a queue, 0 to 9.
    pub priority: Option<u8>,
    /// Which request it answers.
    pub correlation_id: Option<&'a [u8]>,
    /// Where an answer is wanted.
    pub reply_to: Option<&'a [u8]>,
    /// For how many milliseconds it is worth delivering, as RabbitMQ reads it.
    pub expiration: Option<&'a [u8]>,
    /// Its name.
    pub message_id: Option<&'a [u8]>,
    /// When it was made, in seconds since 1970.
    pub timestamp: Option<u64>,
    /// What kind of message it is; the reference calls it type.
    pub kind: Option<&'a [u8]>,
    /// Who published it.
    pub user_id: Option<&'a [u8]>,
    /// Which application published it.
    pub app_id: Option<&'a [u8]>,
    /// Reserved.
    pub cluster_id: Option<&'a [u8]>,
}

// A flag, and those of higher bits.
fn flag(set: bool, higher: u16) -> u16
    requires { higher < 32768 }
    ensures is { result ≡ (if set then 1 else 0) + 2 * higher }
    ensures small { result ≤ 2 * higher + 1 }
{
    if set { 2 * higher + 1 } else { 2 * higher }
}

// The bit of a number at a place, the lowest at 0.
fn bit(place: u8, number: u16) -> bool
    ensures { result ≡ bit place number }
{
    if place == 0 {
        number % 2 == 1
    } else {
        bit(place - 1, number / 2)
    }
}

// Puts a short string behind octets, where there is one. Whether it is one: not where it has too many octets.
fn put_short(out: &mut Vec<u8>, field: Option<&[u8]>) -> Result<bool, NoMemory>
    ensures done { IfOk result (λ done. done ≡ is_short_enough 255 (option_map (λ s. s.now) field.entry)) }
    ensures octets { IfOk result (λ done. done ≡ true → out.new.items
        ≡ out.old.items ++ spell_present spell_short_string (option_map (λ s. s.now) field.entry)) }
{
    let Some(text) = field else {
        return Ok(true);
    };
    if text.len() > 255 {
        return Ok(false);
    }
    out.push(text.len() as u8)?;
    out.extend_from_slice(text)?;
    Ok(true)
}

// The same of a long string.
fn put_long(out: &mut Vec<u8>, field: Option<&[u8]>) -> Result<bool, NoMemory>
    ensures done { IfOk result (λ done. done ≡ is_short_enough 4294967295 (option_map (λ s. s.now) field.entry)) }
    ensures octets { IfOk result (λ done. done ≡ true → out.new.items
        ≡ out.old.items ++ spell_present spell_long_string (option_map (λ s. s.now) field.entry)) }
{
    let Some(text) = field else {
        return Ok(true);
    };
    if text.len() > 4_294_967_295 {
        return Ok(false);
    }
    out.extend_from_slice(&(text.len() as u32).to_be_bytes())?;
    out.extend_from_slice(text)?;
    Ok(true)
}

// Puts an octet behind octets, where there is one.
fn put_octet(out: &mut Vec<u8>, field: Option<u8>) -> Result<(), NoMemory>
    ensures { IfOk result (λ _. out.new.items ≡ out.old.items ++ spell_present spell_octet field) }
{
    if let Some(octet) = field {
        out.push(octet)?;
    }
    Ok(())
}

// The same of a number of 64 bits.
fn put_number(out: &mut Vec<u8>, field: Option<u64>) -> Result<(), NoMemory>
    ensures { IfOk result (λ _. out.new.items ≡ out.old.items ++ spell_present spell_number field) }
{
    if let Some(number) = field {
        out.extend_from_slice(&number.to_be_bytes())?;
    }
    Ok(())
}

impl BasicProperties<'_> {
    /// None.
    pub fn new() -> BasicProperties<'static>
        ensures { fields_of result ≡ no_fields }
    {
        BasicProperties {
            content_type: None,
            content_encoding: None,
            headers: None,
            delivery_mode: None,
            priority: None,
            correlation_id: None,
            reply_to: None,
            expiration: None,
            message_id: None,
            timestamp: None,
            kind: None,
            user_id: None,
            app_id: None,
            cluster_id: None,
        }
    }

    // Which of them are there, as bits: the first has the highest of 16, and the two lowest mean nothing.
    fn flags(&self) -> u16
        ensures { result ≡ flags_of (fields_of self.now) }
    {
        let has_content_type = self.content_type.is_some();
        let content_type = flag(has_content_type, 0);
        let has_content_encoding = self.content_encoding.is_some();
        let content_encoding = flag(has_content_encoding, content_type);
        let has_headers = self.headers.is_some();
        let headers = flag(has_headers, content_encoding);
        let has_delivery_mode = self.delivery_mode.is_some();
        let delivery_mode = flag(has_delivery_mode, headers);
        let has_priority = self.priority.is_some();
        let priority = flag(has_priority, delivery_mode);
        let has_correlation_id = self.correlation_id.is_some();
        let correlation_id = flag(has_correlation_id, priority);
        let has_reply_to = self.reply_to.is_some();
        let reply_to = flag(has_reply_to, correlation_id);
        let has_expiration = self.expiration.is_some();
        let expiration = flag(has_expiration, reply_to);
        let has_message_id = self.message_id.is_some();
        let message_id = flag(has_message_id, expiration);
        let has_timestamp = self.timestamp.is_some();
        let timestamp = flag(has_timestamp, message_id);
        let has_kind = self.kind.is_some();
        let kind = flag(has_kind, timestamp);
        let has_user_id = self.user_id.is_some();
        let user_id = flag(has_user_id, kind);
        let has_app_id = self.app_id.is_some();
        let app_id = flag(has_app_id, user_id);
        let has_cluster_id = self.cluster_id.is_some();
        let cluster_id = flag(has_cluster_id, app_id);
        4 * cluster_id
    }

    // Puts the first seven behind octets. Whether each text is short enough.
    fn put_first(&self, out: &mut Vec<u8>) -> Result<bool, NoMemory>
        ensures done { IfOk result (λ done. done ≡ first_fit (fields_of self.now).0) }
        ensures octets { IfOk result (λ done. done ≡ true → out.new.items
            ≡ out.old.items ++ spell_first (fields_of self.now).0) }
    {
        if !put_short(out, self.content_type)?
            || !put_short(out, self.content_encoding)?
            || !put_long(out, self.headers)?
        {
            return Ok(false);
        }
        put_octet(out, self.delivery_mode)?;
        put_octet(out, self.priority)?;
        Ok(put_short(out, self.correlation_id)? && put_short(out, self.reply_to)?)
    }

    // The same of the last seven.
    fn put_second(&self, out: &mut Vec<u8>) -> Result<bool, NoMemory>
        ensures done { IfOk result (λ done. done ≡ second_fit (fields_of self.now).1) }
        ensures octets { IfOk result (λ done. done ≡ true → out.new.items
            ≡ out.old.items ++ spell_second (fields_of self.now).1) }
    {
        if !put_short(out, self.expiration)? || !put_short(out, self.message_id)? {
            return Ok(false);
        }
        put_number(out, self.timestamp)?;
        Ok(
            put_short(out, self.kind)?
                && put_short(out, self.user_id)?
                && put_short(out, self.app_id)?
                && put_short(out, self.cluster_id)?,
        )
    }

    /// The octets of a content header behind the size of the body: the flags, and what is there. None where a
    /// text has more than 255 octets, or the headers have 2 ^ 32.
    pub fn spelled(&self, alloc: Global) -> Result<Option<Vec<u8>>, NoMemory>
        ensures { IfOk result (λ found. option_map (λ v. v.items) found ≡ spelled_properties (fields_of self.now)) }
    {
        let mut out = Vec::from_slice(alloc, &self.flags().to_be_bytes())?;
        if self.put_first(&mut out)? && self.put_second(&mut out)? {
            Ok(Some(out))
        } else {
            drop(out);
            Ok(None)
        }
    }
}

impl<'a> Rest<'a> {
    // A short string, where there is one.
    fn short_if(&mut self, is_there: bool) -> Option<Option<&'a [u8]>>
        ensures { ReadsOff (λ found. option_map (λ s. s.now) found) result self.new.bytes.now
            (field_at is_there short_string_at self.old.bytes.now) }
    {
        if is_there {
            Some(Some(self.short()?))
        } else {
            Some(None)
        }
    }

    // A long string, where there is one.
    fn long_if(&mut self, is_there: bool) -> Option<Option<&'a [u8]>>
        ensures { ReadsOff (λ found. option_map (λ s. s.now) found) result self.new.bytes.now
            (field_at is_there long_string_at self.old.bytes.now) }
    {
        if is_there {
            Some(Some(self.long()?))
        } else {
            Some(None)
        }
    }

    // An octet, where there is one.
    fn octet_if(&mut self, is_there: bool) -> Option<Option<u8>>
        ensures { ReadsOff (λ found. found) result self.new.bytes.now
            (field_at is_there octet_at self.old.bytes.now) }
    {
        if is_there {
            Some(Some(self.octet()?))
        } else {
            Some(None)
        }
    }

    // A number of 64 bits, where there is one.
    fn number_if(&mut self, is_there: bool) -> Option<Option<u64>>
        ensures { ReadsOff (λ found. found) result self.new.bytes.now
            (field_at is_there (number_at w64) self.old.bytes.now) }
    {
        if is_there {
            Some(Some(self.number64()?))
        } else {
            Some(None)
        }
    }
}

// The first seven, and none of the last.
fn first_of<'a>(flags: u16, rest: &mut Rest<'a>) -> Option<BasicProperties<'a>>
    ensures { ReadsOff (λ p. (fields_of p).0) result rest.new.bytes.now (first_at flags rest.old.bytes.now) }
{
    let content_type = rest.short_if(bit(15, flags))?;
    let content_encoding = rest.short_if(bit(14, flags))?;
    let headers = rest.long_if(bit(13, flags))?;
    let delivery_mode = rest.octet_if(bit(12, flags))?;
    let priority = rest.octet_if(bit(11, flags))?;
    let correlation_id = rest.short_if(bit(10, flags))?;
    let reply_to = rest.short_if(bit(9, flags))?;
    Some(BasicProperties {
        content_type,
        content_encoding,
        headers,
        delivery_mode,
        priority,
        correlation_id,
        reply_to,
        ..BasicProperties::new()
    })
}

// The last seven, beside the first.
fn second_of<'a>(
    flags: u16,
    first: BasicProperties<'a>,
    rest: &mut Rest<'a>,
) -> Option<BasicProperties<'a>>
    ensures second { ReadsOff (λ p. (fields_of p).1) result rest.new.bytes.now (second_at flags rest.old.bytes.now) }
    ensures first { IfSome result (λ p. (fields_of p).0 ≡ (fields_of first.entry).0) }
{
    let expiration = rest.short_if(bit(8, flags))?;
    let message_id = rest.short_if(bit(7, flags))?;
    let timestamp = rest.number_if(bit(6, flags))?;
    let kind = rest.short_if(bit(5, flags))?;
    let user_id = rest.short_if(bit(4, flags))?;
    let app_id = rest.short_if(bit(3, flags))?;
    let cluster_id = rest.short_if(bit(2, flags))?;
    Some(BasicProperties {
        expiration,
        message_id,
        timestamp,
        kind,
        user_id,
        app_id,
        cluster_id,
        ..first
    })
}

/// The properties that octets are, as `spelled` gives them; none where they are no properties, or octets are
/// left.
pub fn read_properties(octets: &[u8]) -> Option<BasicProperties<'_>>
    ensures { option_map fields_of result ≡ properties_in octets.now }
{
    let mut rest = Rest { bytes: octets };
    let flags = rest.number16()?;
    if flags % 4 != 0 {
        return None;
    }
    let first = first_of(flags, &mut rest)?;
    let both = second_of(flags, first, &mut rest)?;
    if rest.bytes.is_empty() {
        Some(both)
    } else {
        None
    }
}
