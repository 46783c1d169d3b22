ghost use Rattle.std.specs.Prelude.{◌≡◌, ◌+◌, ◌==◌, ◌<◌, ◌≤◌, count_by, drop, length, option_map, slice_get, slice_index};
ghost use Rattle.std.specs.List.{position_or_len};
ghost use Rattle.sentence_text.specs.Fields.{field_at_front, fields_of, field_of};

/// A sentence, lent from its line.
#[derive(Clone, Copy)]
pub struct Sentence<'a> {
    /// `$`, or `!` before encapsulated data.
    pub start: u8,
    /// The first two characters of the address.
    pub talker: [u8; 2],
    /// The other characters of the address.
    pub formatter: &'a [u8],
    /// The fields, each behind its comma.
    pub body: &'a [u8],
}

fn comma_run(bytes: &[u8]) -> usize
    ensures run { result ≡ position_or_len (λ c. c == 44) bytes.now }
    ensures within { result ≤ length bytes.now }
{
    bytes.iter().take_while(|byte| **byte != b',').count()
}

/// The bytes up to the first comma.
fn up_to_comma(bytes: &[u8]) -> &[u8]
    ensures { result.now ≡ field_at_front bytes.now }
{
    bytes.split_at(comma_run(bytes)).0
}

fn commas(bytes: &[u8]) -> usize
    ensures { result ≡ count_by (λ c. c == 44) bytes.now }
{
    bytes.iter().filter(|byte| **byte == b',').count()
}

/// The field behind this comma of the body, counted from 1.
#[tactic(auto, using(crate::proofs::FieldLaws::starts, crate::proofs::FieldLaws::goes_on, crate::proofs::FieldLaws::passes, crate::proofs::FieldLaws::is_here, crate::proofs::FieldLaws::is_none))]
fn field_behind(body: &[u8], comma: usize) -> Option<&[u8]>
    requires { 0 < comma }
    ensures { option_map (λ f. f.now) result ≡ field_of body.now comma }
{
    let mut left = comma;
    for (place, byte) in body.iter().enumerate() {
        if *byte == b',' {
            left -= 1;
            if left == 0 {
                return Some(up_to_comma(&body[place + 1..]));
            }
        }
    }
    None
}

impl<'a> Sentence<'a> {
    /// How many fields the sentence has.
    #[tactic(auto, using(crate::proofs::FieldLaws::count_fields))]
    pub fn count(&self) -> usize
        ensures { result ≡ length (fields_of self.now.body.now) }
    {
        commas(self.body)
    }

    /// The field of this number, counted from 1; None beyond the last, and for 0.
    pub fn field(&self, number: usize) -> Option<&'a [u8]>
        ensures { option_map (λ f. f.now) result ≡ field_of self.now.body.now number }
    {
        if number == 0 {
            return None;
        }
        field_behind(self.body, number)
    }
}
