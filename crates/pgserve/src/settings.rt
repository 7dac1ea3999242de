//! The settings of a session.
//!
//! PostgreSQL manual, "SET", "SHOW", and "Asynchronous Operations" of the protocol.

ghost use Rattle.std.specs.Prelude.{◌≡◌};
ghost use Rattle.pgserve.specs.Sent.{Informs, Puts, setting};

use crate::fault::Fault;
use crate::outbox::Outbox;
use crate::setting_value::shown;
use pgp_message_write as reply;
use pgp_session::transaction::Status;

/// A setting.
#[derive(Drop)]
pub(crate) struct Setting {
    pub(crate) name: Vec<u8>,
    pub(crate) value: Vec<u8>,
    /// What it is at first.
    first: Vec<u8>,
    /// Whether the client is informed of each value.
    is_reported: bool,
    /// The value of which the client was informed last.
    told: Option<Vec<u8>>,
}

impl Setting {
    /// Whether it has a value of which the client has to be informed.
    fn is_news(&self) -> bool {
        match &self.told {
            Some(told) => self.is_reported && told.as_slice() != self.value.as_slice(),
            None => self.is_reported,
        }
    }

    /// Appends its value, of which the client is informed then.
    #[tactic(auto, unfolding(pgp_base::specs::Held::lengthened))]
    fn report(&mut self, out: &mut Outbox)
        ensures { Puts (setting self.old.name.items self.old.value.items) out.old.bytes.items out.new.bytes.items out.new.fault }
    {
        self.told = Some(out.copy(&self.value));
        if let Err(why) = reply::parameter_status(&self.name, &self.value, &mut out.bytes) {
            out.fail(Fault::from(why));
        }
    }
}

/// What a setting was before a transaction set it.
#[derive(Drop)]
struct Undo {
    place: usize,
    value: Vec<u8>,
    /// How many savepoints there were.
    depth: usize,
    /// Whether it was set for the transaction alone.
    is_local: bool,
}

/// Up to when a setting is set.
#[derive(Clone, Copy, PartialEq, Eq)]
pub(crate) enum Scope {
    /// From the beginning on.
    Session,
    /// From now on, unless the transaction is rolled back, or the part of it where so many savepoints are; a request outside of one is
    /// a transaction of its own.
    Kept(usize),
    /// Up to the end of the transaction.
    Local(usize),
}

/// All settings that are known.
#[derive(Drop)]
pub(crate) struct Settings {
    list: Vec<Setting>,
    undo: Vec<Undo>,
}

impl Settings {
    /// The settings of a server of version 15.
    pub(crate) fn new(out: &mut Outbox) -> Settings {
        let mut settings = Settings {
            list: Vec::new(out.alloc),
            undo: Vec::new(out.alloc),
        };
        settings.add_all(&REPORTED, true, out);
        settings.add_all(&OTHERS, false, out);
        settings
    }

    fn add_all(
        &mut self,
        values: &[(&'static [u8], &'static [u8])],
        is_reported: bool,
        out: &mut Outbox,
    ) {
        for (name, value) in values {
            self.add(name, value, is_reported, out);
        }
    }

    fn add(&mut self, name: &[u8], value: &[u8], is_reported: bool, out: &mut Outbox)
        ensures { out.new.bytes ≡ out.old.bytes }
    {
        let setting = Setting {
            name: out.copy(name),
            value: out.copy(value),
            first: out.copy(value),
            is_reported,
            told: None,
        };
        out.add(&mut self.list, setting);
    }

    fn place(&self, name: &[u8]) -> Option<usize> {
        for (place, setting) in self.list.iter().enumerate() {
            if setting.name.as_slice().eq_ignore_ascii_case(name) {
                return Some(place);
            }
        }
        None
    }

    pub(crate) fn find(&self, name: &[u8]) -> Option<&Setting> {
        self.list.get(self.place(name)?)
    }

    fn find_mut(&mut self, name: &[u8]) -> Option<&mut Setting> {
        let place = self.place(name)?;
        self.list.get_mut(place)
    }

    /// What a script or a startup packet says of a setting at first.
    pub(crate) fn begin(&mut self, name: &[u8], value: &[u8], out: &mut Outbox)
        ensures { out.new.bytes ≡ out.old.bytes }
    {
        self.set(name, value, Scope::Session, out);
        if let Some(setting) = self.find_mut(name) {
            setting.first = out.copy(&setting.value);
        }
    }

    /// Keeps what the setting of this place is, where a transaction sets it.
    fn note(&mut self, place: usize, scope: Scope, out: &mut Outbox)
        ensures { out.new.bytes ≡ out.old.bytes }
    {
        let (depth, is_local) = match scope {
            Scope::Session => return,
            Scope::Kept(depth) => (depth, false),
            Scope::Local(depth) => (depth, true),
        };
        if let Some(setting) = self.list.get(place) {
            let undo = Undo {
                place,
                value: out.copy(&setting.value),
                depth,
                is_local,
            };
            out.add(&mut self.undo, undo);
        }
    }

    /// Sets a setting. One that isn't known is from then on.
    pub(crate) fn set(&mut self, name: &[u8], value: &[u8], scope: Scope, out: &mut Outbox)
        ensures { out.new.bytes ≡ out.old.bytes }
    {
        if self.place(name).is_none() {
            self.add(name, b"", false, out);
        }
        if let Some(place) = self.place(name) {
            self.note(place, scope, out);
            self.put(place, value, out);
        }
    }

    fn put(&mut self, place: usize, value: &[u8], out: &mut Outbox)
        ensures { out.new.bytes ≡ out.old.bytes }
    {
        if let Some(setting) = self.list.get_mut(place) {
            setting.value = shown(&setting.name, &setting.value, value, out);
        }
    }

    /// Sets a setting, or all, to what it was at first.
    pub(crate) fn reset(&mut self, name: &[u8], scope: Scope, out: &mut Outbox) {
        let is_all = name == b"all".as_slice();
        for place in 0..self.list.len() {
            let found = match self.list.get(place) {
                Some(setting) if is_all || setting.name.eq_ignore_ascii_case(name) => {
                    out.copy(&setting.first)
                }
                _ => continue,
            };
            self.note(place, scope, out);
            self.put(place, &found, out);
        }
    }

    /// Undoes what was set where so many savepoints or more were.
    pub(crate) fn roll_back(&mut self, depth: usize, out: &mut Outbox) {
        for _ in 0..self.undo.len() {
            match self.undo.pop() {
                Some(undo) if undo.depth >= depth => self.put(undo.place, &undo.value, out),
                Some(undo) => return out.add(&mut self.undo, undo),
                None => return,
            }
        }
    }

    /// What was set after a savepoint that is released belongs to what stands around it.
    pub(crate) fn release(&mut self, depth: usize) {
        for undo in self.undo.iter_mut() {
            undo.depth = undo.depth.min(depth);
        }
    }

    /// Undoes what was set for the transaction alone, unless it was set again for the session.
    pub(crate) fn commit(&mut self, out: &mut Outbox)
        ensures { out.new.bytes ≡ out.old.bytes }
    {
        let mut kept = Vec::new(out.alloc);
        'undone: for _ in 0..self.undo.len() {
            self.keep(&mut kept, out);
        }
    }

    /// Undoes the newest change, if it is one for the transaction alone, and the setting of its place isn't kept.
    fn keep(&mut self, kept: &mut Vec<usize>, out: &mut Outbox)
        ensures { out.new.bytes ≡ out.old.bytes }
    {
        match self.undo.pop() {
            Some(undo) if !undo.is_local => out.add(kept, undo.place),
            Some(undo) if !kept.contains(&undo.place) => self.put(undo.place, &undo.value, out),
            _ => {}
        }
    }

    /// Keeps what a request outside of a transaction has set.
    pub(crate) fn end_request(&mut self, status: Status, out: &mut Outbox)
        ensures { out.new.bytes ≡ out.old.bytes }
    {
        if status == Status::Idle {
            self.commit(out);
        }
    }

    /// Sets the modes of a transaction that these words say.
    pub(crate) fn set_modes(&mut self, modes: &str, scope: Scope, out: &mut Outbox) {
        for (words, name, value) in &MODES {
            if modes.contains(words) {
                self.set(name, value, scope, out);
            }
        }
    }

    /// Sets the modes of transactions from now on that these words say.
    pub(crate) fn set_defaults(&mut self, modes: &str, scope: Scope, out: &mut Outbox) {
        for (words, mode, value) in &MODES {
            for (default, name) in &DEFAULTS {
                if modes.contains(words) && name == mode {
                    self.set(default, value, scope, out);
                }
            }
        }
    }

    /// Sets the modes of a transaction that begins: those by default, and those that these words say.
    pub(crate) fn begin_transaction(&mut self, modes: &str, out: &mut Outbox) {
        for (default, name) in &DEFAULTS {
            if let Some(setting) = self.find(default) {
                let value = out.copy(&setting.value);
                self.set(name, &value, Scope::Local(0), out);
            }
        }
        self.set_modes(modes, Scope::Local(0), out);
    }

    /// Appends a ParameterStatus for each value of which the client wasn't informed.
    pub(crate) fn report(&mut self, out: &mut Outbox)
        ensures { Informs out.old.bytes.items out.new.bytes.items }
    {
        for setting in self.list.iter_mut() {
            if setting.is_news() {
                setting.report(out);
            }
        }
    }
}

/// What a server of version 15 reports after a log-in, in its order.
static REPORTED: [(&[u8], &[u8]); 13] = [
    (b"application_name", b""),
    (b"client_encoding", b"UTF8"),
    (b"DateStyle", b"ISO, MDY"),
    (b"default_transaction_read_only", b"off"),
    (b"in_hot_standby", b"off"),
    (b"integer_datetimes", b"on"),
    (b"IntervalStyle", b"postgres"),
    (b"is_superuser", b"off"),
    (b"server_encoding", b"UTF8"),
    (b"server_version", b"15.0"),
    (b"session_authorization", b""),
    (b"standard_conforming_strings", b"on"),
    (b"TimeZone", b"UTC"),
];

/// The modes of a transaction, by words of it: the settings that have them, and their values. Of two that stand in the words, the later one
/// counts.
static MODES: [(&str, &[u8], &[u8]); 8] = [
    ("committed", b"transaction_isolation", b"read committed"),
    ("uncommitted", b"transaction_isolation", b"read uncommitted"),
    ("repeatable", b"transaction_isolation", b"repeatable read"),
    ("serializable", b"transaction_isolation", b"serializable"),
    ("only", b"transaction_read_only", b"on"),
    ("write", b"transaction_read_only", b"off"),
    ("deferrable", b"transaction_deferrable", b"on"),
    ("not\0deferrable", b"transaction_deferrable", b"off"),
];

/// The settings of which a transaction takes its modes where it says none.
static DEFAULTS: [(&[u8], &[u8]); 3] = [
    (b"default_transaction_isolation", b"transaction_isolation"),
    (b"default_transaction_read_only", b"transaction_read_only"),
    (b"default_transaction_deferrable", b"transaction_deferrable"),
];

/// More that drivers ask for.
static OTHERS: [(&[u8], &[u8]); 9] = [
    (b"default_transaction_deferrable", b"off"),
    (b"default_transaction_isolation", b"read committed"),
    (b"extra_float_digits", b"1"),
    (b"max_identifier_length", b"63"),
    (b"search_path", b"\"$user\", public"),
    (b"statement_timeout", b"0"),
    (b"transaction_deferrable", b"off"),
    (b"transaction_isolation", b"read committed"),
    (b"transaction_read_only", b"off"),
];
