//! VTG, course over ground and ground speed: `$GPVTG,90.0,T,,M,9.99,N,18.50,K,A*01`.
//!
//! 1 and 2 course in degrees true, 3 and 4 magnetic, 5 and 6 speed in knots, 7 and 8 in km/h, 9 the mode: `A`
//! autonomous, `N` not valid.

ghost use Rattle.std.specs.Prelude.{◌≡◌, [], ◌∷◌, ◌++◌, codes};
ghost use Rattle.sentence_fields.specs.Field.{IsCounted, texts_of, sentence_by};
ghost use Rattle.sentence_fields.specs.ReadBack.{IsReadBack};
ghost use Rattle.sentence_profile.specs.Writing as text;
ghost use Rattle.sentence_profile.specs.Columns.{fields_in};
ghost use Rattle.sentence_profile.specs.Reading as spec;
ghost use Rattle.sentence_rows.specs.Ready.{IsReady};

use crate::column::{is_invalid_mode, is_magnetic};
use crate::letter::only_if;
use crate::number::either_unit;
use readings::Reading;
use sentence_fields::Field::{Angle, Decimal, Letter};
use sentence_fields::written_unit::{KILOMETRES_PER_HOUR, KNOTS};
use sentence_fields::{Lines, append, letter_where};
use sentence_profile::{FieldFault, read_unit};
use sentence_text::Sentence;

pub(crate) fn vtg(
    talker: [u8; 2],
    magnetic: bool,
    course: Option<i64>,
    speed: Option<i64>,
    out: &mut Lines,
)
    requires ready { IsReady talker out.old.items }
    requires knots { IsCounted KNOTS speed }
    requires kilometres { IsCounted KILOMETRES_PER_HOUR speed }
    ensures said { texts_of out.new ≡ texts_of out.old ++ sentence_by talker (codes "VTG") (text.vtg magnetic course speed) ∷ [] }
    ensures again { IsReadBack talker (codes "VTG") (text.vtg magnetic course speed) }
{
    let from_true = only_if(!magnetic, course);
    let from_magnetic = only_if(magnetic, course);
    let mode = letter_where(course.is_some() || speed.is_some(), b'A', b'N');
    append(
        talker,
        *b"VTG",
        &[
            Angle(from_true),
            Letter(b'T'),
            Angle(from_magnetic),
            Letter(b'M'),
            Decimal(speed, KNOTS),
            Letter(b'N'),
            Decimal(speed, KILOMETRES_PER_HOUR),
            Letter(b'K'),
            Letter(mode),
        ],
        out,
    );
}

/// The course, true or else magnetic, and the speed that are read; a mode of `N` makes them absent.
#[tactic(auto, unfolding(sentence_profile::specs::Reading::vtg))]
pub(crate) fn read(sentence: &Sentence<'_>) -> Result<Reading, FieldFault>
    ensures { result ≡ spec.vtg (fields_in sentence.now) }
{
    let course = either_unit(sentence, 1, read_unit::ANGLE, b'T', read_unit::ANGLE, b'M')?;
    let speed = either_unit(
        sentence,
        5,
        read_unit::KNOTS,
        b'N',
        read_unit::KILOMETRES_PER_HOUR,
        b'K',
    )?;
    let valid = !is_invalid_mode(sentence, 9);
    Ok(Reading::CourseSpeed {
        magnetic: is_magnetic(sentence),
        course: only_if(valid, course),
        speed: only_if(valid, speed),
    })
}
