//! How messages are shown, and how much of them.

ghost use Rattle.std.specs.Prelude.{◌≡◌};
ghost use Rattle.pgtool_line.specs.Styles.{style_of};

/// How many bytes of a text or a value are shown where not all are asked for.
const SHORT: usize = 64;

/// How a message is shown.
#[derive(Debug, Clone, Copy, PartialEq, Eq)]
pub enum Form {
    /// By a line of text whose first parts stand in columns.
    Columns,
    /// By a JSON object.
    Json,
}

/// How a message is shown, and how much of it.
#[derive(Debug, Clone, Copy, PartialEq, Eq)]
pub struct Style {
    pub form: Form,
    /// How many bytes of a text or of a value.
    pub limit: usize,
    /// Whether passwords, their salts, the texts of exchanges and keys are, or how long they are alone.
    pub secrets: bool,
}

/// How messages are shown: by lines of text or JSON objects, with all or a front of texts and values, and with secrets or how long they are.
pub fn style_of(json: bool, full: bool, secrets: bool) -> Style
    ensures { result ≡ style_of json full secrets }
{
    Style {
        form: if json { Form::Json } else { Form::Columns },
        limit: if full { usize::MAX } else { SHORT },
        secrets,
    }
}
