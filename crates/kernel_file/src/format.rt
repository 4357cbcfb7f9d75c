//! The two formats of a kernel file.
ghost use Rattle.std.specs.Prelude.{◌≡◌, false, true, MatchOption};

/// A format, by how many transmissions its mask has.
#[derive(Clone, Copy, Debug, PartialEq, Eq)]
pub enum Format {
    /// Covered pixels let everything through, others nothing.
    OneTransmission,
    /// The file says what covered pixels let through, and what others do.
    TwoTransmissions,
}

impl Format {
    ghost use Rattle.kernel_file.specs.KernelFile.{format_of, has_magic, head_len, part_limit};

    /// The format that the first four bytes of a file name.
    pub fn of_file(bytes: &[u8]) -> Option<Format>
        ensures { MatchOption result (has_magic bytes.now ≡ false)
            (λ format. (has_magic bytes.now ≡ true) × (format ≡ format_of bytes.now)) }
    {
        if bytes.starts_with(b"OPK2") {
            Some(Format::TwoTransmissions)
        } else if bytes.starts_with(b"OPK1") {
            Some(Format::OneTransmission)
        } else {
            None
        }
    }

    /// How many bytes stand before the first kernel.
    pub fn head_len(self) -> usize
        ensures { result ≡ head_len self }
    {
        match self {
            Format::OneTransmission => 8,
            Format::TwoTransmissions => 16,
        }
    }

    /// How far from 0 a part of an entry may be.
    pub fn part_limit(self) -> u16
        ensures { result ≡ part_limit self }
    {
        match self {
            Format::OneTransmission => 2048,
            Format::TwoTransmissions => 128,
        }
    }
}
