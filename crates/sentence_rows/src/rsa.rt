//! RSA, rudder sensor angle: `$IIRSA,-1.0,A,,V*55`.
//!
//! 1 and 2 the only or starboard rudder in degrees and its status, 3 and 4 the port rudder and its status:
//! `A` valid, `V` not.

ghost use Rattle.std.specs.Prelude.{◌≡◌, [], ◌∷◌, ◌++◌, codes};
ghost use Rattle.sentence_fields.specs.Field.{IsCounted, texts_of, sentence_by};
ghost use Rattle.sentence_fields.specs.ReadBack.{IsReadBack};
ghost use Rattle.sentence_profile.specs.Writing as text;
ghost use Rattle.sentence_profile.specs.Columns.{fields_in};
ghost use Rattle.sentence_profile.specs.Reading as spec;
ghost use Rattle.sentence_rows.specs.Ready.{IsReady};

use crate::column::status;
use crate::letter::only_if;
use crate::number::number;
use readings::Reading;
use sentence_fields::Field::{Decimal, Empty, Letter};
use sentence_fields::written_unit::DEGREES;
use sentence_fields::{Lines, append, letter_where};
use sentence_profile::{FieldFault, read_unit};
use sentence_text::Sentence;

pub(crate) fn rsa_first(talker: [u8; 2], position: Option<i64>, out: &mut Lines)
    requires ready { IsReady talker out.old.items }
    requires position { IsCounted DEGREES position }
    ensures said { texts_of out.new ≡ texts_of out.old ++ sentence_by talker (codes "RSA") (text.rsa_first position) ∷ [] }
    ensures again { IsReadBack talker (codes "RSA") (text.rsa_first position) }
{
    let status = letter_where(position.is_some(), b'A', b'V');
    append(
        talker,
        *b"RSA",
        &[
            Decimal(position, DEGREES),
            Letter(status),
            Empty,
            Letter(b'V'),
        ],
        out,
    );
}

pub(crate) fn rsa_second(talker: [u8; 2], position: Option<i64>, out: &mut Lines)
    requires ready { IsReady talker out.old.items }
    requires position { IsCounted DEGREES position }
    ensures said { texts_of out.new ≡ texts_of out.old ++ sentence_by talker (codes "RSA") (text.rsa_second position) ∷ [] }
    ensures again { IsReadBack talker (codes "RSA") (text.rsa_second position) }
{
    let status = letter_where(position.is_some(), b'A', b'V');
    append(
        talker,
        *b"RSA",
        &[
            Empty,
            Letter(b'V'),
            Decimal(position, DEGREES),
            Letter(status),
        ],
        out,
    );
}

/// The rudders that are read: the first where its field isn't empty or both are, and the second where its field
/// isn't. A status of `V` makes its rudder absent.
#[tactic(auto, unfolding(sentence_profile::specs::Reading::rsa))]
pub(crate) fn read(sentence: &Sentence<'_>) -> Result<(Reading, Option<Reading>), FieldFault>
    ensures { result ≡ spec.rsa (fields_in sentence.now) }
{
    let first = number(sentence, 1, read_unit::RUDDER)?;
    let first_valid = status(sentence, 2, first.is_none())?;
    let second = number(sentence, 3, read_unit::RUDDER)?;
    let second_valid = status(sentence, 4, second.is_none())?;
    let one = Reading::RudderFirst {
        position: only_if(first_valid, first),
    };
    let other = Reading::RudderSecond {
        position: only_if(second_valid, second),
    };
    Ok(rudders(first.is_none(), second.is_none(), one, other))
}

/// Which of the rudders there are.
fn rudders(
    no_first: bool,
    no_second: bool,
    first: Reading,
    second: Reading,
) -> (Reading, Option<Reading>)
    ensures { result ≡ spec.rudders no_first no_second first second }
{
    if no_second {
        (first, None)
    } else if no_first {
        (second, None)
    } else {
        (first, Some(second))
    }
}
