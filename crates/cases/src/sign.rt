//! The signs of a script's case file.

/// What the lines behind a sign are.
#[derive(Clone, Copy, Debug, PartialEq, Eq)]
pub enum Part {
    /// The script's lines, in front of those that take turns.
    Front,
    /// Lines of which each run has one.
    Each,
    /// The script's lines behind those that take turns.
    Back,
    /// What is printed on the output.
    Out,
    /// What is printed on the error stream.
    Err,
}

/// What a sign says.
#[derive(Clone, Copy, Debug, PartialEq, Eq)]
pub enum Sign {
    /// What the lines behind it are.
    Part(Part),
    /// The status of the runs.
    Status(u8),
}

/// Reads a sign, by the text behind its hyphens.
pub fn read_sign(text: &str) -> Option<Sign> {
    if let Some(code) = text.strip_prefix("status ") {
        return Some(Sign::Status(code.parse().ok()?));
    }
    match text {
        "each" => Some(Sign::Part(Part::Each)),
        "then" => Some(Sign::Part(Part::Back)),
        "out" => Some(Sign::Part(Part::Out)),
        "err" => Some(Sign::Part(Part::Err)),
        _ => None,
    }
}
