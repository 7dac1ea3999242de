//! A script, read from its text.

use crate::fault::Fault;
use crate::pattern::regex_of;
use crate::reader::Reader;
use crate::report::report_of;
use crate::script::{By, Pair, Role, Script, Statement};
use crate::text::{is_blank, trimmed};
use crate::user::{Auth, User};
use crate::wording::words_of;
use std::alloc::Global;

/// The setting of this line: its name, and after a space its value, which may be empty.
pub(crate) fn setting_of(line: &str, reader: &mut Reader) -> Pair {
    if !line.contains(' ') {
        reader.wrong_at(
            "a setting has a name and, after a space, a value",
            line.len(),
        );
    }
    pair_of(line, reader)
}

/// A name, and after a space a text, which may be empty.
pub(crate) fn pair_of(line: &str, reader: &mut Reader) -> Pair {
    let (name, value) = line.split_once(' ').unwrap_or((line, ""));
    if name.is_empty() {
        reader.wrong("a name and, after a space, a text stand here");
    }
    Pair {
        name: reader.text(name),
        value: reader.text(value),
    }
}

/// The statements in which this pattern matches.
fn statements_like(pattern: &str, reader: &mut Reader) -> Statement {
    let regex = regex_of(pattern, &mut reader.out);
    if regex.is_none() {
        reader.wrong_at("a regular expression stands here", 2);
    }
    let (text, no_words) = (reader.out.copy(pattern.as_bytes()), reader.string(""));
    let mut statement = Statement::new(By::Pattern, text, no_words, reader);
    statement.regex = regex;
    statement
}

/// A statement that begins here, which `~` makes a pattern.
fn statement_of(rest: &str, by_words: bool, reader: &mut Reader) -> Statement {
    if let Some(pattern) = rest.strip_prefix("~ ") {
        return statements_like(pattern, reader);
    }
    let text = reader.text(rest);
    if is_blank(trimmed(&text), &mut reader.out) {
        reader.wrong("a statement has a text: an empty query is answered by itself");
    }
    let words = words_of(trimmed(&text), &mut reader.out);
    if by_words {
        let text = reader.out.copy(words.as_bytes());
        return Statement::new(By::Words, text, words, reader);
    }
    let text = reader.out.copy(trimmed(&text));
    Statement::new(By::Text, text, words, reader)
}

/// The function of this number.
fn function_of(rest: &str, reader: &mut Reader) -> Statement {
    let number = reader.count(rest, 0);
    let (no_text, no_words) = (reader.raw(""), reader.string(""));
    Statement::new(By::Function(number), no_text, no_words, reader)
}

/// Begins a statement, or a function.
fn begin(script: &mut Script, word: &str, rest: &str, reader: &mut Reader) {
    let mut statement = match word {
        "function" => function_of(rest, reader),
        _ => statement_of(rest, script.by_words, reader),
    };
    if script.written(statement.by, &statement.text).is_some() {
        reader.wrong("such an answer stands above");
    }
    statement.place = script.statements.len();
    statement.first = statement.place;
    reader.out.add(&mut script.statements, statement);
}

/// What is said of a line that belongs to a statement.
const NO_STATEMENT: &str = "this line stands below a `statement`";

/// Begins a further answer to the last statement.
fn begin_further(script: &mut Script, role: Role, reader: &mut Reader) {
    match script.statements.last() {
        Some(last) => {
            let further = last.further(role, reader);
            reader.out.add(&mut script.statements, further);
        }
        None => reader.wrong_first(NO_STATEMENT),
    }
}

/// Takes note of a verifier that is none of the method's, which stands so many bytes after the first word and its blank.
fn test_verifier(auth: Auth, verifier: &str, at: usize, reader: &mut Reader) {
    match auth.test(reader.out.alloc, verifier) {
        Ok(()) => {}
        Err(Fault::Memory) => reader.out.lack(),
        Err(Fault::NoVerifier) => reader.wrong_at("nothing stands after trust", at),
        Err(_) => reader.wrong_at("a verifier of the method stands here", at),
    }
}

/// The method of this name, which stands so many bytes after the first word and its blank.
fn method_of(name: &str, at: usize, reader: &mut Reader) -> Auth {
    match Auth::of(name) {
        Some(auth) => auth,
        None => {
            reader.wrong_at("a method is trust, password, md5, scram or scram-plus", at);
            Auth::Trust
        }
    }
}

/// The user of this line: the name, the method, and the method's verifier.
fn user_of(line: &str, reader: &mut Reader) -> User {
    let parts = line.split_once(' ');
    if parts.is_none() {
        reader.wrong("a user has a name and, after a space, a method");
    }
    let (name, rest) = parts.unwrap_or(("", ""));
    let (method, verifier) = rest.split_once(' ').unwrap_or((rest, ""));
    let at = name.len().saturating_add(1);
    let auth = method_of(method, at, reader);
    let behind = at.saturating_add(method.len()).saturating_add(1);
    test_verifier(auth, verifier, behind, reader);
    User {
        name: reader.text(name),
        auth,
        verifier: reader.string(verifier),
    }
}

/// Adds the user of this line, who has no line above.
fn add_user(script: &mut Script, line: &str, reader: &mut Reader) {
    let user = user_of(line, reader);
    if script.has_user(&user.name) {
        reader.wrong("the user stands above");
    }
    reader.out.add(&mut script.users, user);
}

/// Lines that stand below no `function`.
static OF_ROWS: [&str; 8] = [
    "column", "table", "modifier", "format", "row", "copy", "data", "tag",
];

/// Adds what a line says of the last statement.
fn add_part(script: &mut Script, word: &str, rest: &str, reader: &mut Reader) {
    match script.statements.last_mut() {
        Some(statement) if statement.is_function() && OF_ROWS.contains(&word) => {
            reader.wrong_first(NO_STATEMENT);
        }
        Some(statement) => statement.add(word, rest, reader),
        None => reader.wrong_first(NO_STATEMENT),
    }
}

/// Whether statements are meant by their words.
fn by_words(word: &str) -> Option<bool> {
    match word {
        "words" => Some(true),
        "text" => Some(false),
        _ => None,
    }
}

/// Reads a line.
fn read_line(script: &mut Script, line: &str, reader: &mut Reader) {
    if line.is_empty() || line.starts_with('#') {
        return;
    }
    let (word, rest) = line.split_once(' ').unwrap_or((line, ""));
    reader.pass(word);
    match word {
        "statement" | "function" => begin(script, word, rest, reader),
        "setting" => {
            let setting = setting_of(rest, reader);
            reader.out.add(&mut script.settings, setting);
        }
        "user" => add_user(script, rest, reader),
        "login" => script.login = Some(report_of("FATAL", rest, reader)),
        "match" => {
            let wanted = "statements are matched by text or words";
            script.by_words = reader.found(by_words(rest), wanted, false);
        }
        "then" => begin_further(script, Role::Then, reader),
        "and" => begin_further(script, Role::And, reader),
        _ => add_part(script, word, rest, reader),
    }
}

/// Reads the lines, up to the first fault.
fn read_lines(script: &mut Script, text: &str, reader: &mut Reader) -> Result<(), Fault> {
    for line in text.lines() {
        reader.begin_line();
        read_line(script, line, reader);
        end_of(reader)?;
    }
    if let Some(line) = script.open_line() {
        reader.fail("the answer has no tag, no result and no error", line, 1);
    }
    end_of(reader)
}

/// The fault of what was read, if there was one.
fn end_of(reader: &Reader) -> Result<(), Fault> {
    reader.out.end()?;
    match reader.fault {
        Some(place) => Err(Fault::Script(place)),
        None => Ok(()),
    }
}

/// A text without the mark of its byte order.
pub(crate) fn unmarked(text: &str) -> &str {
    text.strip_prefix('\u{feff}').unwrap_or(text)
}

/// The script of this text.
///
/// # Errors
///
/// Returns `Script`, with the place of the first fault, and `Memory`.
pub(crate) fn script_of(alloc: Global, text: &str) -> Result<Script, Fault> {
    let mut script = Script::new(alloc);
    let mut reader = Reader::new(alloc);
    read_lines(&mut script, unmarked(text), &mut reader)?;
    Ok(script)
}
