/// Whether a word may be another one, misspelled: in other letters of the alphabet's two cases, or with one letter too
/// many, too few or wrong, or two in the wrong order.
pub fn is_near(word: &[u8], other: &[u8]) -> bool {
    word != other
        && (word.eq_ignore_ascii_case(other)
            || has_one_slip(word, other)
            || has_two_swapped(word, other))
}

/// The shortest word of which one letter may be wrong.
const SHORTEST: usize = 3;

// Whether two words are the same but for one letter, which may be one that the other hasn't.
fn has_one_slip(word: &[u8], other: &[u8]) -> bool {
    let same = same_at_start(word, other).saturating_add(same_at_end(word, other));
    word.len().min(other.len()) >= SHORTEST
        && word.len().abs_diff(other.len()) <= 1
        && same.saturating_add(1) >= word.len().max(other.len())
}

// Whether two words are the same but for two letters that stand in the other order.
fn has_two_swapped(word: &[u8], other: &[u8]) -> bool {
    let start = same_at_start(word, other);
    match (word.get(start..), other.get(start..)) {
        (Some([a, b, word @ ..]), Some([c, d, other @ ..])) => a == d && b == c && word == other,
        _ => false,
    }
}

fn same_at_start(word: &[u8], other: &[u8]) -> usize {
    word.iter()
        .zip(other.iter())
        .take_while(|(a, b)| a == b)
        .count()
}

fn same_at_end(word: &[u8], other: &[u8]) -> usize {
    word.iter()
        .rev()
        .zip(other.iter().rev())
        .take_while(|(a, b)| a == b)
        .count()
}

/// The word of the language that may be meant by this one, where it is none itself.
pub fn known_near(word: &[u8]) -> Option<&'static str> {
    if KNOWN.iter().any(|known| known.as_bytes() == word) {
        return None;
    }
    KNOWN
        .iter()
        .copied()
        .find(|known| is_near(word, known.as_bytes()))
}

/// Words that the language has, and names of calls.
static KNOWN: &[&str] = &[
    "SC_MODULE",
    "SC_CTOR",
    "SC_THREAD",
    "SC_METHOD",
    "SC_HAS_PROCESS",
    "SC_PS",
    "SC_NS",
    "SC_US",
    "SC_MS",
    "SC_SEC",
    "SC_ZERO_TIME",
    "sc_main",
    "sc_start",
    "sc_stop",
    "sc_in",
    "sc_in_clk",
    "sc_out",
    "sc_inout",
    "sc_signal",
    "sc_clock",
    "sc_event",
    "sc_fifo",
    "sc_fifo_in",
    "sc_fifo_out",
    "sc_module_name",
    "sc_time_stamp",
    "sensitive",
    "dont_initialize",
    "wait",
    "next_trigger",
    "bool",
    "int",
    "unsigned",
    "long",
    "void",
    "const",
    "static",
    "public",
    "using",
    "namespace",
    "if",
    "else",
    "while",
    "for",
    "do",
    "break",
    "continue",
    "return",
    "true",
    "false",
    "cout",
    "endl",
    "read",
    "write",
    "nb_read",
    "nb_write",
    "num_available",
    "num_free",
    "event",
    "posedge",
    "negedge",
    "pos",
    "neg",
    "value_changed",
    "value_changed_event",
    "default_event",
    "posedge_event",
    "negedge_event",
    "data_written_event",
    "data_read_event",
    "notify",
    "cancel",
    "bind",
];
