use lab_guess::{Unit, meant, without_comment, without_dmsetup};

/// At which places a command of this verb has numbers, counted from 0.
pub fn command_numbers(verb: &str) -> &'static [usize] {
    match verb {
        "ram" => &[1, 2],
        "sleep" => &[1],
        _ => &[],
    }
}

/// What is told of a message with several blocks.
const OF_BLOCKS: &str =
    "it is `message NAME SECTOR WORD [WORD]`: one message has one block, so several blocks take several lines";

/// What is wrong with a command: first what comes of copying one from elsewhere, then its form.
pub fn reason(line: &str, verb: &str) -> &'static str {
    if line.contains(';') {
        return "a script has one command on a line, and no `;`: write the other ones on lines of their own";
    }
    let bare = without_dmsetup(line);
    if verb == "message" && 5 < without_comment(bare).split_whitespace().count() {
        return OF_BLOCKS;
    }
    let is_none = matches!(
        verb,
        "info" | "ls" | "deps" | "remove_all" | "wipe_table" | "rename" | "mknodes"
    );
    if !is_none && bare.len() != line.trim().len() {
        return "a command begins with its verb, without `dmsetup`";
    }
    if line.contains(" -r ") || line.contains("--readonly") {
        return "a device here can always be read and written: there is no `--readonly`";
    }
    if line.contains('$') || line.contains('`') {
        return "a script has no variables of a shell and runs no other command: write the number or the name itself";
    }
    if without_comment(line).len() != line.len() {
        return "a `#` behind words begins no comment; a comment has a line of its own, whose first byte is `#`";
    }
    if matches!(verb, "ram" | "sleep" | "message")
        && line.split_whitespace().skip(1).any(is_meant)
    {
        return "a number is plain decimal digits, with no sign, suffix or 0x: of sectors in `ram`, of microseconds in \
                `sleep`";
    }
    by_verb(verb)
}

/// Whether a word means a number, and is none.
fn is_meant(word: &str) -> bool {
    meant(word, Unit::Microseconds)
        .or(meant(word, Unit::Sectors))
        .is_some()
}

/// The form of a command.
fn by_verb(verb: &str) -> &'static str {
    match verb {
        "ram" => "it is `ram N SECTORS`, N 0 to 255, SECTORS 1 to 65536, before all other commands",
        "create" => {
            "it is `create NAME TABLE` or `create NAME --notable`; the table's lines stand under \
             `== table TABLE`"
        }
        "load" | "reload" =>
            "it is `load NAME TABLE`; the table's lines stand under `== table TABLE`",
        "message" => {
            "it is `message NAME SECTOR WORD [WORD]`, SECTOR 0 for the device's first line; one message has one block"
        }
        "sleep" => "it is `sleep MICROSECONDS`, at most 3600000000",
        "replay" => "`replay` stands alone on its line, and starts all logs at once",
        "wait" =>
            "`wait` stands alone on its line and waits for the logs; `sleep MICROSECONDS` lets time pass",
        "suspend" | "resume" | "remove" | "clear" | "status" | "table" => {
            "the command has one word behind it: the NAME of a mapped device, without its path"
        }
        "info" | "ls" | "deps" => {
            "dmsetup's info, ls and deps are no commands here: `status NAME` shows the state of a device, `table NAME` \
             its lines"
        }
        "remove_all" | "wipe_table" | "rename" | "mknodes" | "udevcreatecookie" | "setgeometry" => {
            "dmsetup's command is none here: `remove NAME` removes one device, and `load NAME TABLE` with \
             `resume NAME` changes a table"
        }
        _ => {
            "the commands are ram, create, load, reload, clear, suspend, resume, remove, message, status, table, \
             sleep, replay and wait, in small letters"
        }
    }
}
