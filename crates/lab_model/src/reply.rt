use crate::text::Text;

/// What a command told: its line in the script, and the text.
#[derive(Debug, Drop)]
pub struct Reply {
    pub line: u64,
    pub text: Text,
}
