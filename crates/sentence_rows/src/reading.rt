ghost use Rattle.std.specs.Prelude.{◌≡◌, [], All};
ghost use Rattle.readings.specs.Rows.{IsValid};
ghost use Rattle.sentence_text.specs.Reading.{parts};
ghost use Rattle.sentence_profile.specs.Columns.{fields_in};
ghost use Rattle.sentence_profile.specs.Reading as spec;
ghost use Rattle.sentence_rows.specs.Held.{IsHeld};

use crate::{
    dbt, dpt, gga, gll, hdg, hdt, mtw, mwd, mwv, rmc, rot, rsa, ths, vhw, vlw, vtg, xte, zda,
};
use arrayvec::ArrayVec;
use readings::Reading;
use sentence_profile::{FieldFault, Formatter, OptionalSentences};
use sentence_text::Sentence;

/// The readings of one sentence.
pub type Readings = ArrayVec<Reading, 2>;

/// Puts the one reading that is read where it is to lie, and no second one.
#[inline(always)]
fn put_one(read: Result<Reading, FieldFault>, out: &mut Readings) -> Result<(), FieldFault>
    requires { out.old.items ≡ [] }
    ensures { IsHeld result out.new.items (spec.alone read) }
{
    match read {
        Ok(reading) => {
            out.push(reading);
            Ok(())
        }
        Err(fault) => Err(fault),
    }
}

/// Puts the one or two readings that are read where they are to lie.
#[inline(always)]
fn put_both(
    read: Result<(Reading, Option<Reading>), FieldFault>,
    out: &mut Readings,
) -> Result<(), FieldFault>
    requires { out.old.items ≡ [] }
    ensures { IsHeld result out.new.items read }
{
    match read {
        Ok((first, second)) => {
            out.push(first);
            if let Some(second) = second {
                out.push(second);
            }
            Ok(())
        }
        Err(fault) => Err(fault),
    }
}

/// The readings of a sentence of this formatter.
fn read_by(
    formatter: Formatter,
    sentence: &Sentence<'_>,
    out: &mut Readings,
) -> Result<(), FieldFault>
    requires { out.old.items ≡ [] }
    ensures { IsHeld result out.new.items (spec.read_as formatter (fields_in sentence.now)) }
{
    match formatter {
        Formatter::Hdt => put_one(hdt::read(sentence), out),
        Formatter::Hdg => put_one(hdg::read(sentence), out),
        Formatter::Rot => put_one(rot::read(sentence), out),
        Formatter::Rsa => put_both(rsa::read(sentence), out),
        Formatter::Vhw => put_one(vhw::read(sentence), out),
        Formatter::Dpt => put_one(dpt::read(sentence), out),
        Formatter::Dbt => put_one(dbt::read(sentence), out),
        Formatter::Vlw => put_one(vlw::read(sentence), out),
        Formatter::Gll => put_one(gll::read(sentence), out),
        Formatter::Vtg => put_one(vtg::read(sentence), out),
        Formatter::Gga => put_one(gga::read(sentence), out),
        Formatter::Zda => put_one(zda::read(sentence), out),
        Formatter::Mwv => put_one(mwv::read(sentence), out),
        Formatter::Mwd => put_one(mwd::read(sentence), out),
        Formatter::Mtw => put_one(mtw::read(sentence), out),
        Formatter::Xte => put_one(xte::read(sentence), out),
        Formatter::Ths => put_one(ths::read(sentence), out),
        Formatter::Rmc => put_both(rmc::read(sentence), out),
    }
}

/// Reads the sentence: its one or two readings, which `out`, empty before, then holds, or the first fault in the
/// order of its fields, and then `out` is empty. Fields behind those of the sentence are ignored.
///
/// RMC is outside here: `read_rows_with` reads it.
pub fn read_rows(sentence: &Sentence<'_>, out: &mut Readings) -> Result<(), FieldFault>
    requires { out.old.items ≡ [] }
    // The readings are those of the sentence, and the fault is its first.
    ensures exact { spec.IsReadRow result out.new.items spec.usual (parts sentence.now) }
    // Each value is in its range.
    ensures valid { All IsValid out.new.items }
{
    read_rows_with(sentence, OptionalSentences::USUAL, out)
}

/// Reads the sentence as `read_rows` does, if it is read at all.
#[tactic(auto, unfolding(sentence_profile::specs::Reading::read_sentence))]
pub fn read_rows_with(
    sentence: &Sentence<'_>,
    optional: OptionalSentences,
    out: &mut Readings,
) -> Result<(), FieldFault>
    requires { out.old.items ≡ [] }
    // The readings are those of the sentence, and the fault is its first.
    ensures exact { spec.IsReadRow result out.new.items optional (parts sentence.now) }
    // Each value is in its range.
    ensures valid { All IsValid out.new.items }
{
    if sentence.start != b'$' {
        return Err(FieldFault::Outside);
    }
    match Formatter::of(sentence.formatter) {
        Some(formatter) => {
            if formatter.is_wanted(optional) {
                read_by(formatter, sentence, out)
            } else {
                Err(FieldFault::Outside)
            }
        }
        None => Err(FieldFault::Outside),
    }
}
