//! The commands that need no script: those of transactions, settings, statements, cursors and channels.
//!
//! PostgreSQL manual, "BEGIN", "COMMIT", "ROLLBACK", "SAVEPOINT", "RELEASE SAVEPOINT", "ROLLBACK TO SAVEPOINT", "SET", "RESET", "SHOW",
//! "DEALLOCATE", "DISCARD", "DECLARE", "FETCH", "MOVE", "CLOSE", "LISTEN", "UNLISTEN", "NOTIFY".

/// What stands between two words.
pub(crate) const SEPARATOR: char = '\0';

/// A command, whose names are in small letters, or as they stand in quotes.
#[derive(Clone, Copy)]
pub(crate) enum Command<'w> {
    /// `BEGIN` or `START TRANSACTION`, by its tag, and the words of its modes.
    Begin(&'static str, &'w str),
    Commit {
        chains: bool,
    },
    Rollback {
        chains: bool,
    },
    Savepoint(&'w str),
    Release(&'w str),
    RollbackTo(&'w str),
    /// `SET TRANSACTION` with the words of its modes.
    SetTransaction(&'w str),
    /// `SET SESSION CHARACTERISTICS AS TRANSACTION` with the words of the modes.
    SetDefaults(&'w str),
    /// `SET` of a setting to a value of these words.
    Set {
        name: &'w str,
        value: &'w str,
        is_local: bool,
    },
    /// `RESET`; of all by the name `all`, which no setting has.
    Reset(&'w str),
    Show(&'w str),
    /// `DEALLOCATE` of a statement.
    Deallocate(&'w str),
    DeallocateAll,
    DiscardAll,
    /// `DECLARE` of a cursor, whose query stands in the text.
    Declare {
        name: &'w str,
        is_held: bool,
    },
    /// `FETCH` or `MOVE` of so many further rows of a cursor; of all by 0.
    Fetch {
        name: &'w str,
        most: usize,
        moves: bool,
    },
    /// `CLOSE` of a cursor.
    CloseCursor(&'w str),
    CloseAll,
    Listen(&'w str),
    /// `UNLISTEN`; of all channels without a name.
    Unlisten(&'w str),
    Notify {
        name: &'w str,
        text: &'w str,
    },
}

impl Command<'_> {
    /// Whether it may be run in a transaction that failed.
    pub(crate) fn ends_failure(self) -> bool {
        matches!(
            self,
            Command::Commit { .. } | Command::Rollback { .. } | Command::RollbackTo(_)
        )
    }
}

/// The first of these words, and those after it.
fn split(words: &str) -> (&str, &str) {
    words.split_once(SEPARATOR).unwrap_or((words, ""))
}

/// The words after this one, if it is the first.
fn after<'w>(words: &'w str, word: &str) -> Option<&'w str> {
    let (first, rest) = split(words);
    if first == word { Some(rest) } else { None }
}

/// The words of a transaction's command without the `WORK` or `TRANSACTION` that says nothing.
fn after_work(words: &str) -> &str {
    after(words, "work")
        .or(after(words, "transaction"))
        .unwrap_or(words)
}

/// Whether the next transaction begins at once, by the words after `COMMIT` or `ROLLBACK`; `None` where others stand there.
fn chains(words: &str) -> Option<bool> {
    match after_work(words) {
        "" | "and\0no\0chain" => Some(false),
        "and\0chain" => Some(true),
        _ => None,
    }
}

/// The words of a transaction's modes.
static MODES: [&str; 11] = [
    "isolation",
    "level",
    "serializable",
    "repeatable",
    "read",
    "committed",
    "uncommitted",
    "write",
    "only",
    "not",
    "deferrable",
];

fn is_mode(word: &str) -> bool {
    let word = word.trim_end_matches(',');
    for mode in &MODES {
        if *mode == word {
            return true;
        }
    }
    word.is_empty()
}

/// Whether these words are modes of a transaction. In which order they stand isn't looked at.
fn are_modes(words: &str) -> bool {
    for word in words.split(SEPARATOR) {
        if !is_mode(word) {
            return false;
        }
    }
    true
}

/// The name that this word is: that in quotes, or an identifier.
fn identifier(word: &str) -> Option<&str> {
    match word.strip_prefix('"') {
        Some("") => None,
        Some(name) => Some(name),
        None => match word.chars().next() {
            Some('a'..='z' | '_' | '\u{80}'..) => Some(word),
            _ => None,
        },
    }
}

/// The one name that these words are, which may stand after this word.
fn name_of<'w>(words: &'w str, word: &str) -> Option<&'w str> {
    let (first, rest) = split(words);
    match split(rest) {
        ("", _) => identifier(first),
        (name, "") if first == word => identifier(name),
        _ => None,
    }
}

/// The command that a `ROLLBACK` with these words after it is.
fn rollback(rest: &str) -> Option<Command<'_>> {
    match after(after_work(rest), "to") {
        Some(names) => Some(Command::RollbackTo(name_of(names, "savepoint")?)),
        None => Some(Command::Rollback {
            chains: chains(rest)?,
        }),
    }
}

/// The setting that these words of a `SHOW` or a `RESET` name.
fn setting(words: &str) -> Option<&str> {
    match words {
        "time\0zone" => Some("timezone"),
        "transaction\0isolation\0level" => Some("transaction_isolation"),
        _ => name_of(words, ""),
    }
}

/// The name and the words of the value of `NAME = VALUE` or `NAME TO VALUE`.
fn assigned(words: &str) -> Option<(&str, &str)> {
    let (first, rest) = split(words);
    let (name, value) = match first.split_once('=') {
        Some((name, "")) => (name, rest),
        Some((name, _)) => (name, words.strip_prefix(name)?.strip_prefix('=')?),
        None => match after(rest, "to").or(after(rest, "=")) {
            Some(value) => (first, value),
            None => (first, rest.strip_prefix('=')?),
        },
    };
    if value.is_empty() {
        return None;
    }
    Some((identifier(name)?, value))
}

/// The `SET` of these words after it: one of a transaction's modes, or of a setting.
fn set(rest: &str) -> Option<Command<'_>> {
    if let Some(modes) = rest.strip_prefix("session\0characteristics\0as\0transaction\0") {
        return if are_modes(modes) {
            Some(Command::SetDefaults(modes))
        } else {
            None
        };
    }
    if let Some(modes) = after(rest, "transaction") {
        return if are_modes(modes) && !modes.is_empty() {
            Some(Command::SetTransaction(modes))
        } else {
            None
        };
    }
    let local = after(rest, "local");
    let words = local.or(after(rest, "session")).unwrap_or(rest);
    let named = match after(words, "names") {
        Some(value) => Some(("client_encoding", value)),
        None => match words.strip_prefix("time\0zone\0") {
            Some(value) => Some(("timezone", value)),
            None => assigned(words),
        },
    };
    let (name, value) = named?;
    Some(Command::Set {
        name,
        value,
        is_local: local.is_some(),
    })
}

/// `DEALLOCATE` of the statement that these words name, or of all.
fn deallocate(rest: &str) -> Option<Command<'_>> {
    match after(rest, "prepare").unwrap_or(rest) {
        "all" => Some(Command::DeallocateAll),
        name => Some(Command::Deallocate(name_of(name, "")?)),
    }
}

/// `DECLARE` of a cursor of this name, with these words.
fn declare(rest: &str) -> Option<Command<'_>> {
    let (name, words) = split(rest);
    let (options, _) = words.split_once("\0for\0")?;
    let held = options.strip_suffix("\0with\0hold");
    let front = held
        .or(options.strip_suffix("\0without\0hold"))
        .unwrap_or(options);
    if front != "cursor" && !front.ends_with("\0cursor") {
        return None;
    }
    Some(Command::Declare {
        name: identifier(name)?,
        is_held: held.is_some(),
    })
}

/// How many rows these words of a `FETCH` ask for, 0 for all; `None` of those that don't go forward.
fn count_of(words: &str) -> Option<usize> {
    match after(words, "forward").unwrap_or(words) {
        "" | "next" => Some(1),
        "all" => Some(0),
        digits => match digits.parse::<usize>() {
            Ok(0) | Err(_) => None,
            Ok(count) => Some(count),
        },
    }
}

/// `FETCH` or `MOVE` with these words: how many, and behind `FROM` or `IN` the cursor's name.
fn fetch(rest: &str, moves: bool) -> Option<Command<'_>> {
    let (front, name) = rest.rsplit_once(SEPARATOR).unwrap_or(("", rest));
    let words = front
        .strip_suffix("from")
        .or(front.strip_suffix("in"))
        .unwrap_or(front);
    Some(Command::Fetch {
        name: identifier(name)?,
        most: count_of(words.trim_end_matches(SEPARATOR))?,
        moves,
    })
}

/// `NOTIFY` of a channel, with a text behind a comma or without.
fn notify(rest: &str) -> Option<Command<'_>> {
    let (front, last) = rest.rsplit_once(SEPARATOR).unwrap_or((rest, ""));
    let (names, text) = match last.strip_prefix('\'') {
        Some(text) => (front.strip_suffix(',')?.trim_end_matches(SEPARATOR), text),
        None => (rest, ""),
    };
    Some(Command::Notify {
        name: name_of(names, "")?,
        text,
    })
}

/// The command that these words are, if they are one.
pub(crate) fn command_of(words: &str) -> Option<Command<'_>> {
    let (first, rest) = split(words);
    match first {
        "begin" if are_modes(after_work(rest)) => Some(Command::Begin("BEGIN", rest)),
        "start" if are_modes(after(rest, "transaction")?) => {
            Some(Command::Begin("START TRANSACTION", rest))
        }
        "commit" | "end" => Some(Command::Commit {
            chains: chains(rest)?,
        }),
        "rollback" | "abort" => rollback(rest),
        "savepoint" => Some(Command::Savepoint(name_of(rest, "")?)),
        "release" => Some(Command::Release(name_of(rest, "savepoint")?)),
        "set" => set(rest),
        "reset" => Some(Command::Reset(setting(rest)?)),
        "show" => Some(Command::Show(setting(rest)?)),
        "deallocate" => deallocate(rest),
        "discard" if rest == "all" => Some(Command::DiscardAll),
        "declare" => declare(rest),
        "fetch" => fetch(rest, false),
        "move" => fetch(rest, true),
        "close" if rest == "all" => Some(Command::CloseAll),
        "close" => Some(Command::CloseCursor(name_of(rest, "")?)),
        "listen" => Some(Command::Listen(name_of(rest, "")?)),
        "unlisten" if rest == "*" => Some(Command::Unlisten("")),
        "unlisten" => Some(Command::Unlisten(name_of(rest, "")?)),
        "notify" => notify(rest),
        _ => None,
    }
}
