use lab_outline::plain;

/// What is told of a line of a job file of fio, of what blkparse prints, or of another log of fio, if it is one.
pub fn of_other_tool(line: &str) -> Option<&'static str> {
    if is_of_job(line) {
        return Some(
            "this is a line of a job file of fio, and no log: run fio by it with `--write_iolog=FILE`, make version 2 of \
             FILE by `tools/iolog3to2`, and put its lines here",
        );
    }
    if is_of_blkparse(line) {
        return Some(
            "this is a line of blkparse, and no log: write it as `/dev/mapper/NAME write OFFSET LENGTH` in bytes, which are \
             512 times its sector and its count",
        );
    }
    if is_of_samples(line) {
        return Some(
            "this is a latency, bandwidth or IOPS log of fio, and a log of a bundle is an iolog, as `--write_iolog=FILE` writes it",
        );
    }
    None
}

/// Whether a line is one of a latency, bandwidth or IOPS log of fio: three to seven numbers with commas between.
fn is_of_samples(line: &str) -> bool {
    let count = line.split(',').count();
    (3..=7).contains(&count)
        && line.contains(", ")
        && line.split(',').all(|it| plain(it.trim()).is_some())
}

/// Whether a line is one of a job file: a section's name in brackets, or a setting.
fn is_of_job(line: &str) -> bool {
    let bare = line.trim();
    let (name, value) = bare.split_once('=').unwrap_or(("", ""));
    let is_setting = !name.is_empty() && !name.contains(' ') && !value.is_empty();
    let is_section = bare.starts_with('[') && bare.ends_with(']');
    (is_section || is_setting) && !bare.contains('/')
        || is_setting && name.trim_end().ends_with("name")
}

/// Whether a line is one that blkparse prints: `MAJOR,MINOR CPU SEQUENCE TIME PID ACTION ..`.
fn is_of_blkparse(line: &str) -> bool {
    let mut words = line.split_whitespace();
    let device = words.next().unwrap_or("");
    let (major, minor) = device.split_once(',').unwrap_or(("", ""));
    let is_device = plain(major).is_some() && plain(minor).is_some();
    is_device && words.next().is_some_and(|cpu| plain(cpu).is_some()) && words.count() >= 4
}
