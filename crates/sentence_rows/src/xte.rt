//! XTE, cross track error: `$IIXTE,A,A,0.100,L,N,A*25`.
//!
//! 1 and 2 the statuses: `A` valid, `V` not, 3 the distance in nautical miles, 4 the side to steer to, `L` or `R`, 5
//! `N`, 6 the mode: `A` autonomous, `N` not valid.

ghost use Rattle.std.specs.Prelude.{◌≡◌, [], ◌∷◌, ◌++◌, codes};
ghost use Rattle.sentence_fields.specs.Field.{IsCounted, texts_of, sentence_by};
ghost use Rattle.sentence_fields.specs.ReadBack.{IsReadBack};
ghost use Rattle.sentence_profile.specs.Writing as text;
ghost use Rattle.sentence_profile.specs.Columns.{fields_in};
ghost use Rattle.sentence_profile.specs.Reading as spec;
ghost use Rattle.sentence_rows.specs.Ready.{IsReady};

use crate::column::{is_blank, status, unit_letter};
use crate::letter::only_if;
use crate::number::sided;
use readings::Reading;
use sentence_fields::Field::{Letter, Magnitude, Side};
use sentence_fields::written_unit::TRACK_MILES;
use sentence_fields::{Lines, append, letter_where};
use sentence_profile::{FieldFault, read_unit};
use sentence_text::Sentence;

pub(crate) fn xte(talker: [u8; 2], distance: Option<i64>, out: &mut Lines)
    requires ready { IsReady talker out.old.items }
    requires distance { IsCounted TRACK_MILES distance }
    ensures said { texts_of out.new ≡ texts_of out.old ++ sentence_by talker (codes "XTE") (text.xte distance) ∷ [] }
    ensures again { IsReadBack talker (codes "XTE") (text.xte distance) }
{
    let status = letter_where(distance.is_some(), b'A', b'V');
    let mode = letter_where(distance.is_some(), b'A', b'N');
    append(
        talker,
        *b"XTE",
        &[
            Letter(status),
            Letter(status),
            Magnitude(distance, TRACK_MILES),
            Side(distance, TRACK_MILES, b'L', b'R'),
            Letter(b'N'),
            Letter(mode),
        ],
        out,
    );
}

/// The distance from the track that is read; either status of `V` makes it absent.
#[tactic(auto, unfolding(sentence_profile::specs::Reading::xte))]
pub(crate) fn read(sentence: &Sentence<'_>) -> Result<Reading, FieldFault>
    ensures { result ≡ spec.xte (fields_in sentence.now) }
{
    let nothing = is_blank(sentence, 3);
    let first = status(sentence, 1, nothing)?;
    let second = status(sentence, 2, nothing)?;
    let distance = sided(sentence, 3, read_unit::TRACK_MILES, b'L', b'R')?;
    unit_letter(sentence, 5, b'N', distance.is_none())?;
    Ok(Reading::CrossTrack {
        distance: only_if(first && second, distance),
    })
}
