//! GLL, geographic position: `$GPGLL,1300.0000,N,18000.0000,W,,A,A*5E`.
//!
//! 1 and 2 latitude as ddmm.mmmm and `N` or `S`, 3 and 4 longitude as dddmm.mmmm and `E` or `W`, 5 time, which is
//! not written, 6 the status: `A` valid, `V` not, 7 the mode: `A` autonomous, `N` not valid.

ghost use Rattle.std.specs.Prelude.{◌≡◌, [], ◌∷◌, ◌++◌, codes};
ghost use Rattle.sentence_fields.specs.Field.{IsCounted, texts_of, sentence_by};
ghost use Rattle.sentence_fields.specs.ReadBack.{IsReadBack};
ghost use Rattle.sentence_profile.specs.Writing as text;
ghost use Rattle.sentence_profile.specs.Columns.{fields_in};
ghost use Rattle.sentence_profile.specs.Reading as spec;
ghost use Rattle.sentence_rows.specs.Ready.{IsReady};

use crate::column::{status, unkept};
use crate::letter::{beside, only_if};
use crate::position::coordinate;
use readings::Reading;
use sentence_fields::Field::{Degrees, Empty, Letter, Side};
use sentence_fields::written_unit::MINUTES;
use sentence_fields::{Lines, append, letter_where};
use sentence_profile::{FieldFault, read_unit};
use sentence_text::Sentence;

pub(crate) fn gll(talker: [u8; 2], latitude: Option<i64>, longitude: Option<i64>, out: &mut Lines)
    requires ready { IsReady talker out.old.items }
    requires latitude { IsCounted MINUTES latitude }
    requires longitude { IsCounted MINUTES longitude }
    ensures said { texts_of out.new ≡ texts_of out.old ++ sentence_by talker (codes "GLL") (text.gll latitude longitude) ∷ [] }
    ensures again { IsReadBack talker (codes "GLL") (text.gll latitude longitude) }
{
    let status = letter_where(latitude.is_some(), b'A', b'V');
    let mode = letter_where(latitude.is_some(), b'A', b'N');
    append(
        talker,
        *b"GLL",
        &[
            Degrees(latitude, MINUTES, 2),
            Side(latitude, MINUTES, b'N', b'S'),
            Degrees(longitude, MINUTES, 3),
            Side(longitude, MINUTES, b'E', b'W'),
            Empty,
            Letter(status),
            Letter(mode),
        ],
        out,
    );
}

/// The position that is read; a status of `V` makes it absent.
#[tactic(auto, unfolding(sentence_profile::specs::Reading::gll))]
pub(crate) fn read(sentence: &Sentence<'_>) -> Result<Reading, FieldFault>
    ensures { result ≡ spec.gll (fields_in sentence.now) }
{
    let latitude = coordinate(sentence, 1, read_unit::LATITUDE, 4, b'N', b'S')?;
    let longitude = coordinate(sentence, 3, read_unit::LONGITUDE, 5, b'E', b'W')?;
    unkept(sentence, 5)?;
    let nothing = latitude.is_none() && longitude.is_none();
    let valid = status(sentence, 6, nothing)?;
    Ok(Reading::Position {
        latitude: only_if(valid, beside(latitude, longitude)),
        longitude: only_if(valid, beside(longitude, latitude)),
    })
}
