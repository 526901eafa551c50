use lab_outline::plain;

/// Whether a word is a target type of a bundle.
pub fn is_type(word: &str) -> bool {
    matches!(
        word,
        "linear" | "zero" | "error" | "flakey" | "dust" | "delay"
    )
}

/// Whether a line has the first three words of a table's line.
pub fn is_row(line: &str) -> bool {
    let mut words = line.split_whitespace();
    let start = words.next().unwrap_or("");
    let length = words.next().unwrap_or("");
    let kind = words.next().unwrap_or("");
    plain(start).is_some() && plain(length).is_some() && is_type(kind)
}

/// Whether Linux has a target of this type, and a bundle hasn't.
pub fn is_lacking(word: &str) -> bool {
    is_layered(word) || passes_on(word) || matches!(word, "log-writes" | "switch" | "io-band")
}

/// Whether the type is of a target of Linux that keeps data on several devices.
fn is_layered(word: &str) -> bool {
    matches!(
        word,
        "striped"
            | "stripe"
            | "unstriped"
            | "mirror"
            | "raid"
            | "raid0"
            | "raid1"
            | "raid10"
            | "multipath"
            | "snapshot"
            | "snapshot-origin"
            | "snapshot-merge"
            | "thin"
            | "thin-pool"
            | "vdo"
            | "zoned"
    )
}

/// Whether the type is of a target of Linux that passes a sector on to the one of the same place, changed or checked.
fn passes_on(word: &str) -> bool {
    matches!(
        word,
        "crypt"
            | "verity"
            | "integrity"
            | "cache"
            | "writecache"
            | "era"
            | "clone"
            | "ebs"
            | "pcache"
            | "inlinecrypt"
    )
}

/// What a bundle may have in the place of such a target.
pub fn instead_of(word: &str) -> &'static str {
    match word {
        "striped" | "stripe" | "raid0" =>
            "; a `linear` line for each chunk does the same as stripes",
        "log-writes" => "; `dmlab trace` shows each write of a `linear` line",
        "mirror" | "raid1" | "multipath" => {
            "; a `linear` line does the same as one of its disks or paths"
        }
        _ if passes_on(word) => "; a `linear` line passes each sector on as it is",
        _ => "",
    }
}
