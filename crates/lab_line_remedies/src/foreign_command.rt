use lab_advice::Remedy;
use lab_guess::operation_of_dd;
use lab_outline::Spotted;
use lab_sector::NoMemory;
use std::alloc::Global;

/// The programs and calls that read and write.
const IO: &str =
    "dd fio mkfs mkswap mount umount blkdiscard fstrim cp cat hexdump xxd badblocks sync fsync flush read write trim discard";

/// The programs that make a disk.
const MAKERS: &str = "modprobe insmod losetup truncate fallocate mknod zramctl";

/// The words of a shell that do nothing here.
const IDLE: &str = "set export exit udevadm trap cd true echo printf source test";

/// The words of a shell that repeat commands, or choose among them.
const CHOOSING: &str = "for do done while until if then else elif fi case esac function";

/// The remedy of a line of a script that is a command of another program, or a word of a shell, if it is one.
pub fn foreign_command(alloc: Global, spotted: Spotted<'_>) -> Result<Option<Remedy>, NoMemory> {
    let word = program_in(spotted);
    if let Some(operation) = operation_of_dd(alloc, spotted.line)? {
        return Ok(Some(Remedy::of(alloc, why_written(alloc, operation)?)));
    }
    if has(IO, word) {
        let why =
            "a script reads and writes nothing: this stands in a log, as `/dev/mapper/NAME write 0 4096` under \
                   `== log a`, and `replay` starts all logs";
        return Ok(Some(Remedy::told(alloc, why)?));
    }
    if has(MAKERS, word) {
        let why =
            "a script makes its disks by `ram N SECTORS` alone: no other program is run, so leave this line out";
        return Ok(Some(Remedy::told(alloc, why)?.or_blank(alloc, spotted.number)?));
    }
    if has(CHOOSING, word) {
        let why =
            "a script has no loops and no conditions: write each command as often as it is to be done, on a line of its own";
        return Ok(Some(Remedy::told(alloc, why)?));
    }
    if has(IDLE, word) || is_assignment(word) {
        let why =
            "a script has no words of a shell: write numbers and names where they are used, and leave this line out";
        return Ok(Some(Remedy::told(alloc, why)?.or_blank(alloc, spotted.number)?));
    }
    Ok(None)
}

/// What is told of a program that does this operation of a log.
fn why_written(alloc: Global, operation: String) -> Result<String, NoMemory> {
    Ok(format!(in alloc;
        "a script reads and writes nothing: this stands in a log, as `{operation}` under `== log a`, and `replay` starts all \
         logs"
    )?)
}

/// The program that a line begins with, without `sudo`, its path, and what stands behind a point.
fn program_in(spotted: Spotted<'_>) -> &str {
    let first = if spotted.word(0) == "sudo" {
        spotted.word(1)
    } else {
        spotted.word(0)
    };
    let (_folder, name) = first.rsplit_once('/').unwrap_or(("", first));
    let (program, _kind) = name.split_once('.').unwrap_or((name, ""));
    program.trim_end_matches(';')
}

/// Whether a word is one of these.
fn has(words: &'static str, word: &str) -> bool {
    words.split_whitespace().any(|it| it == word)
}

/// Whether a word gives a variable its value.
fn is_assignment(word: &str) -> bool {
    match word.split_once('=') {
        Some((name, _value)) => !name.is_empty()
            && name.chars().all(|it| it.is_ascii_uppercase() || it == '_'),
        None => false,
    }
}
