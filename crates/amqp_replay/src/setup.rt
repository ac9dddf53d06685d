//! The setup lines of a script: what a session is made from, before its steps.

ghost use Rattle.std.specs.Prelude.{◌≡◌, ◌<◌, ◌∷◌, [], ◌++◌, length, Some, IfOk, OnOk, option_map};
ghost use Rattle.std.specs.List.{slice_split};
ghost use Rattle.std.specs.Option.{option_copied};
ghost use Rattle.std.specs.Str.{IsAscii};
ghost use Rattle.amqp_settings.specs.Config.{config_of};
ghost use Rattle.amqp_replay.specs.declared.setup.Setting.TheVariants.{Uri, Locale, Name, Property, Recover, Delays, Provider, Listen, Limit};
ghost use Rattle.amqp_replay.specs.Setup.{is_setup, uri_in, text_in, property_in, recover_in, is_blank, numbers_of, delays_in, provider_in, listen_in, limit_in, option_by, setting_of, no_lines, may_stand, after_setting, after_step, set_by};

use crate::decimals::number;
use crate::limits::TEXT_BYTES;
use crate::words::{cut, is};
use amqp_session::ConnectionProperties;
use amqp_types::{LongString, NoMemory, ShortString};
use amqp_uri::{AMQPUri, UriFault};
use std::alloc::Global;
use std::marker::Model;

/// What a setup line sets.
#[derive(Debug, Drop)]
pub enum Setting {
    /// The address.
    Uri(AMQPUri),
    /// The language in which texts of the server are wanted.
    Locale(ShortString),
    /// The name of the connection.
    Name(LongString),
    /// A property of the client: its key and its text.
    Property(ShortString, LongString),
    /// That the session goes on where its link is lost.
    Recover,
    /// How long the session waits, time after time, where it has no link and is to have one.
    Delays(DelayList),
    /// The provider of authentication that was handed to the program.
    Provider,
    /// That events are kept.
    Listen,
    /// How many octets may wait once a send or a publish is told.
    Limit(u64),
}

/// Delays, in milliseconds.
#[derive(Debug, Drop)]
pub struct DelayList {
    delays: Vec<u64>,
}

impl Model for DelayList {
    ghost use Rattle.std.specs.Prelude.{ℕ, List};

    ghost Value = { List ℕ };

    ghost view = { λ l. l.delays.items };
}

impl DelayList {
    fn new(alloc: Global) -> DelayList
        ensures { result ≡ [] }
    {
        DelayList {
            delays: Vec::new(alloc),
        }
    }

    // One more, which is the last.
    fn push(&mut self, delay: u64) -> Result<(), NoMemory>
        ensures { OnOk result (self.new ≡ self.old ++ delay ∷ []) }
    {
        self.delays.push(delay)?;
        Ok(())
    }

    fn into_vec(self) -> Vec<u64>
        ensures { result.items ≡ self }
    {
        self.delays
    }
}

/// Whether a line begins with the word of a setup line.
pub fn is_setup(content: &[u8]) -> bool
    ensures { result ≡ is_setup content.now }
{
    let (word, _) = cut(content, b' ');
    is(word, b"uri")
        || is(word, b"locale")
        || is(word, b"name")
        || is(word, b"property")
        || is(word, b"recover")
        || is(word, b"delays")
        || is(word, b"provider")
        || is(word, b"listen")
        || is(word, b"limit")
}

/// What a line sets, where it sets anything.
pub fn read_setting(alloc: Global, content: &[u8]) -> Result<Option<Setting>, NoMemory>
    requires { IsAscii content.now }
    ensures { IfOk result (λ setting. setting ≡ setting_of content.now) }
{
    let (word, rest) = cut(content, b' ');
    if is(word, b"uri") {
        return Ok(uri(alloc, rest.unwrap_or(&[]))?);
    }
    Ok(option(alloc, word, rest)?)
}

// `uri TEXT`
fn uri(alloc: Global, text: &[u8]) -> Result<Option<Setting>, NoMemory>
    requires { IsAscii text.now }
    ensures { IfOk result (λ setting. setting ≡ uri_in (Some text.now)) }
{
    let Ok(text) = str::from_utf8(text) else {
        return Ok(None);
    };
    match AMQPUri::parse(alloc, text) {
        Ok(uri) => Ok(Some(Setting::Uri(uri))),
        Err(UriFault::NoMemory) => Err(NoMemory),
        Err(_) => Ok(None),
    }
}

// What a line sets that begins with another word.
fn option(alloc: Global, word: &[u8], rest: Option<&[u8]>) -> Result<Option<Setting>, NoMemory>
    ensures { IfOk result (λ setting. setting ≡ option_by word.now (option_copied rest.entry)) }
{
    if is(word, b"locale") {
        return Ok(locale(alloc, rest)?);
    }
    if is(word, b"name") {
        return Ok(name(alloc, rest)?);
    }
    if is(word, b"property") {
        return Ok(property(alloc, rest)?);
    }
    if is(word, b"recover") {
        return Ok(recover(rest));
    }
    if is(word, b"delays") {
        return Ok(delays(alloc, rest)?);
    }
    if is(word, b"provider") {
        return Ok(provider(rest));
    }
    if is(word, b"listen") {
        return Ok(listen(rest));
    }
    if is(word, b"limit") {
        return Ok(limit(rest));
    }
    Ok(None)
}

// A text of at most 255 bytes, which may be missing, and is empty then.
fn read_text(alloc: Global, rest: Option<&[u8]>) -> Result<Option<ShortString>, NoMemory>
    ensures { IfOk result (λ text. text ≡ text_in (option_copied rest.entry)) }
{
    let text = rest.unwrap_or(&[]);
    if text.len() > TEXT_BYTES {
        return Ok(None);
    }
    Ok(Some(ShortString::from_vec(Vec::from_slice(alloc, text)?)))
}

// `locale TEXT`
fn locale(alloc: Global, rest: Option<&[u8]>) -> Result<Option<Setting>, NoMemory>
    ensures { IfOk result (λ setting. setting ≡ option_map Locale (text_in (option_copied rest.entry))) }
{
    match read_text(alloc, rest)? {
        Some(text) => Ok(Some(Setting::Locale(text))),
        None => Ok(None),
    }
}

// `name TEXT`
fn name(alloc: Global, rest: Option<&[u8]>) -> Result<Option<Setting>, NoMemory>
    ensures { IfOk result (λ setting. setting ≡ option_map Name (text_in (option_copied rest.entry))) }
{
    match read_text(alloc, rest)? {
        Some(text) => Ok(Some(Setting::Name(long(text)))),
        None => Ok(None),
    }
}

// A short string as a long one.
fn long(text: ShortString) -> LongString
    ensures { result ≡ text }
{
    LongString::from_vec(text.into_vec())
}

// `property KEY TEXT`
fn property(alloc: Global, rest: Option<&[u8]>) -> Result<Option<Setting>, NoMemory>
    ensures { IfOk result (λ setting. setting ≡ property_in (option_copied rest.entry)) }
{
    let Some(words) = rest else {
        return Ok(None);
    };
    let (key, rest) = cut(words, b' ');
    if key.is_empty() || key.len() > TEXT_BYTES {
        return Ok(None);
    }
    match read_text(alloc, rest)? {
        Some(text) => Ok(Some(keyed(alloc, key, text)?)),
        None => Ok(None),
    }
}

// `recover`
fn recover(rest: Option<&[u8]>) -> Option<Setting>
    ensures { result ≡ recover_in (option_copied rest.entry) }
{
    match rest {
        None => Some(Setting::Recover),
        Some(_) => None,
    }
}

// `delays N..`
fn delays(alloc: Global, rest: Option<&[u8]>) -> Result<Option<Setting>, NoMemory>
    ensures { IfOk result (λ setting. setting ≡ delays_in (option_copied rest.entry)) }
{
    let Some(text) = rest else {
        return Ok(Some(Setting::Delays(DelayList::new(alloc))));
    };
    match numbers(alloc, text)? {
        Some(delays) => Ok(Some(Setting::Delays(delays))),
        None => Ok(None),
    }
}

// Numbers, which are parted by one blank each.
fn numbers(alloc: Global, text: &[u8]) -> Result<Option<DelayList>, NoMemory>
    ensures { IfOk result (λ found. found ≡ numbers_of (slice_split is_blank text.now)) }
{
    let mut found = DelayList::new(alloc);
    let mut rest = Some(text);
    'words: while let Some(more) = rest {
        let (word, after) = cut(more, b' ');
        let Some(delay) = number(word, u64::MAX) else {
            return Ok(None);
        };
        found.push(delay)?;
        rest = after;
    }
    Ok(Some(found))
}

// `provider handed`
fn provider(rest: Option<&[u8]>) -> Option<Setting>
    ensures { result ≡ provider_in (option_copied rest.entry) }
{
    match rest {
        Some(text) if is(text, b"handed") => Some(Setting::Provider),
        _ => None,
    }
}

// `listen`
fn listen(rest: Option<&[u8]>) -> Option<Setting>
    ensures { result ≡ listen_in (option_copied rest.entry) }
{
    match rest {
        None => Some(Setting::Listen),
        Some(_) => None,
    }
}

// `limit N`
fn limit(rest: Option<&[u8]>) -> Option<Setting>
    ensures { result ≡ limit_in (option_copied rest.entry) }
{
    match number(rest?, u64::MAX) {
        Some(octets) => Some(Setting::Limit(octets)),
        None => None,
    }
}

// A property of this key and this text.
fn keyed(alloc: Global, key: &[u8], text: ShortString) -> Result<Setting, NoMemory>
    requires { length key.now < 256 }
    ensures { IfOk result (λ setting. setting ≡ Property key.now text) }
{
    match Vec::from_slice(alloc, key) {
        Ok(key) => Ok(Setting::Property(ShortString::from_vec(key), long(text))),
        Err(_) => {
            drop(text);
            Err(NoMemory)
        }
    }
}

/// How far the lines of a script have come: what its settings say so far, and what may still be set.
#[derive(Debug, Drop)]
pub struct Progress {
    uri: AMQPUri,
    options: ConnectionProperties,
    is_handed: bool,
    has_uri: bool,
    has_locale: bool,
    has_name: bool,
    has_recover: bool,
    has_delays: bool,
    has_provider: bool,
    has_listen: bool,
    has_limit: bool,
    has_step: bool,
}

impl Model for Progress {
    ghost use Rattle.amqp_settings.specs.Config.{config_of};
    ghost use Rattle.amqp_replay.specs.Setup.{SetupSoFar};

    ghost Value = { SetupSoFar };

    ghost use Rattle.std.specs.Coded.{codes};
    ghost use Rattle.amqp_types.specs.ValueCode.{value_code};

    ghost coded = { Prim.hlevel (codes, value_code) };

    ghost view = { λ p. record {
      config = config_of p.uri p.options.plain;
      is_handed = p.is_handed;
      has_uri = p.has_uri;
      has_locale = p.has_locale;
      has_name = p.has_name;
      has_recover = p.has_recover;
      has_delays = p.has_delays;
      has_provider = p.has_provider;
      has_listen = p.has_listen;
      has_limit = p.has_limit;
      has_step = p.has_step;
    } };
}

impl Progress {
    /// Before the first line: the broker of this machine, and nothing said of the client. A provider of
    /// authentication was handed to the program or not.
    pub fn new(alloc: Global, is_handed: bool) -> Result<Progress, NoMemory>
        ensures { IfOk result (λ p. p ≡ no_lines is_handed) }
    {
        let uri = AMQPUri::local(alloc)?;
        match ConnectionProperties::new(alloc) {
            Ok(options) => Ok(Progress {
                uri,
                options,
                is_handed,
                has_uri: false,
                has_locale: false,
                has_name: false,
                has_recover: false,
                has_delays: false,
                has_provider: false,
                has_listen: false,
                has_limit: false,
                has_step: false,
            }),
            Err(e) => {
                drop(uri);
                Err(e)
            }
        }
    }

    /// What the session is made from.
    pub fn into_config(self) -> (AMQPUri, ConnectionProperties)
        ensures { config_of result.0 result.1.plain ≡ self.config }
    {
        (self.uri, self.options)
    }

    /// Whether the provider that was handed authenticates the session.
    pub fn has_provider(&self) -> bool
        ensures { result ≡ self.now.has_provider }
    {
        self.has_provider
    }

    /// Whether events are kept.
    pub fn has_listen(&self) -> bool
        ensures { result ≡ self.now.has_listen }
    {
        self.has_listen
    }

    /// A line said a step.
    pub fn note_step(&mut self)
        ensures { self.new ≡ after_step self.old }
    {
        self.has_step = true;
    }

    /// After a setting, unless it may not stand there.
    pub fn set(self, alloc: Global, setting: Setting) -> Result<Option<Progress>, NoMemory>
        ensures { IfOk result (λ p. p ≡ set_by setting self) }
    {
        if !self.may_stand(&setting) {
            drop(setting);
            drop(self);
            return Ok(None);
        }
        match setting {
            Setting::Uri(uri) => Ok(Some(self.with_uri(uri))),
            Setting::Locale(locale) => Ok(Some(self.with_locale(locale))),
            Setting::Name(name) => Ok(Some(self.with_name(alloc, name)?)),
            Setting::Property(key, text) => Ok(Some(self.with_property(key, text)?)),
            Setting::Recover => Ok(Some(self.with_recovery(alloc)?)),
            Setting::Delays(delays) => Ok(Some(self.with_delays(delays))),
            Setting::Provider => Ok(Some(self.with_provider())),
            Setting::Listen => Ok(Some(self.with_listen())),
            Setting::Limit(octets) => Ok(Some(self.with_limit(octets))),
        }
    }

    // Whether a setting may stand there: before all steps, and each but a property once. A provider
    // must have been handed.
    fn may_stand(&self, setting: &Setting) -> bool
        ensures { result ≡ may_stand setting.now self.now }
    {
        match setting {
            Setting::Uri(_) => !(self.has_step || self.has_uri),
            Setting::Locale(_) => !(self.has_step || self.has_locale),
            Setting::Name(_) => !(self.has_step || self.has_name),
            Setting::Property(_, _) => !self.has_step,
            Setting::Recover => !(self.has_step || self.has_recover),
            Setting::Delays(_) => !(self.has_step || self.has_delays),
            Setting::Provider => self.is_handed && !(self.has_step || self.has_provider),
            Setting::Listen => !(self.has_step || self.has_listen),
            Setting::Limit(_) => !(self.has_step || self.has_limit),
        }
    }

    fn with_uri(self, uri: AMQPUri) -> Progress
        ensures { result ≡ after_setting (Uri uri) self }
    {
        drop(self.uri);
        Progress {
            uri,
            options: self.options,
            is_handed: self.is_handed,
            has_uri: true,
            has_locale: self.has_locale,
            has_name: self.has_name,
            has_recover: self.has_recover,
            has_delays: self.has_delays,
            has_provider: self.has_provider,
            has_listen: self.has_listen,
            has_limit: self.has_limit,
            has_step: self.has_step,
        }
    }

    fn with_locale(self, locale: ShortString) -> Progress
        ensures { result ≡ after_setting (Locale locale) self }
    {
        Progress {
            options: self.options.with_locale(locale),
            has_locale: true,
            ..self
        }
    }

    fn with_name(self, alloc: Global, name: LongString) -> Result<Progress, NoMemory>
        ensures { IfOk result (λ p. p ≡ after_setting (Name name) self) }
    {
        match self.options.with_connection_name(alloc, name) {
            Ok(options) => Ok(Progress {
                options,
                has_name: true,
                ..self
            }),
            Err(e) => {
                drop(self.uri);
                Err(e)
            }
        }
    }

    fn with_recovery(self, alloc: Global) -> Result<Progress, NoMemory>
        ensures { IfOk result (λ p. p ≡ after_setting Recover self) }
    {
        match self.options.enable_auto_recover(alloc) {
            Ok(options) => Ok(Progress {
                options,
                has_recover: true,
                ..self
            }),
            Err(e) => {
                drop(self.uri);
                Err(e)
            }
        }
    }

    fn with_delays(self, delays: DelayList) -> Progress
        ensures { result ≡ after_setting (Delays delays) self }
    {
        Progress {
            options: self.options.with_backoff(delays.into_vec()),
            has_delays: true,
            ..self
        }
    }

    fn with_provider(self) -> Progress
        ensures { result ≡ after_setting Provider self }
    {
        Progress {
            has_provider: true,
            ..self
        }
    }

    fn with_listen(self) -> Progress
        ensures { result ≡ after_setting Listen self }
    {
        Progress {
            has_listen: true,
            ..self
        }
    }

    fn with_limit(self, octets: u64) -> Progress
        ensures { result ≡ after_setting (Limit octets) self }
    {
        Progress {
            options: self.options.with_outbox_limit(octets),
            has_limit: true,
            ..self
        }
    }

    fn with_property(self, key: ShortString, text: LongString) -> Result<Progress, NoMemory>
        ensures { IfOk result (λ p. p ≡ after_setting (Property key text) self) }
    {
        match self.options.with_client_property(key, text) {
            Ok(options) => Ok(Progress { options, ..self }),
            Err(e) => {
                drop(self.uri);
                Err(e)
            }
        }
    }
}
