//! Fronts of a text whose octets pass a test.
ghost use Rattle.std.specs.Prelude.{◌≡◌, ◌≤◌, length};
ghost use Rattle.std.specs.List.{prefix_len};
ghost use Rattle.idl_tokens.specs.Runs.{passes, radix_of};
ghost use Rattle.idl_tokens.specs.Tokens.{front, behind};

/// How digits are read.
#[derive(Clone, Copy)]
pub enum Radix {
    Decimal,
    Hexadecimal,
}

/// What a run goes over.
#[derive(Clone, Copy)]
pub enum Run {
    /// Letters, digits and `_`
    Name,
    /// Digits, letters among them in either case.
    Digits(Radix),
    /// What may stand in a string.
    String,
    /// All but the line feed.
    Line,
}

impl Radix {
    pub fn value(self) -> u32
        ensures { result ≡ radix_of self }
    {
        match self {
            Radix::Decimal => 10,
            Radix::Hexadecimal => 16,
        }
    }
}

impl Run {
    fn takes(self, octet: u8) -> bool
        ensures { result ≡ passes self octet }
    {
        match self {
            Run::Name => octet.is_ascii_alphanumeric() || octet == b'_',
            Run::Digits(radix) => (octet as char).is_digit(radix.value()),
            Run::String => {
                (octet.is_ascii_graphic() || octet == b' ') && octet != b'"' && octet != b'\\'
            }
            Run::Line => octet != b'\n',
        }
    }
}

#[tactic(auto, using(std::proofs::lemmas::List::Sums::prefix_len_is))]
fn front_len(text: &[u8], run: Run) -> usize
    ensures value { result ≡ prefix_len (passes run) text.now }
    ensures within { result ≤ length text.now }
{
    for (len, octet) in text.iter().enumerate() {
        if !run.takes(*octet) {
            return len;
        }
    }
    text.len()
}

/// Cuts the text behind the octets that the run takes.
pub fn cut(text: &[u8], run: Run) -> (&[u8], &[u8])
    ensures front { result.0.now ≡ front (passes run) text.now }
    ensures behind { result.1.now ≡ behind (passes run) text.now }
{
    text.split_at(front_len(text, run))
}
