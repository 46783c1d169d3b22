//! The values of RMC, each of the message that says it.
ghost use Rattle.std.specs.Prelude.{◌≡◌, IfSome};
ghost use Rattle.readings.specs.Ranges.{Admits, date as date_range, latitude as latitude_range, longitude as longitude_range, speed as speed_range, deviation};
ghost use Rattle.readings.specs.Rows.{IsValid};
ghost use Rattle.sentence_profile.specs.Rmc.{IsMinimum};
ghost use Rattle.joined_rmc.specs.RmcOut as values;
ghost use Rattle.joined_rmc.specs.Kept.{lent};

use readings::Reading;
use sentence_rows::Minimum;

/// What messages of time, position, course and speed, and heading say, each where it is there.
pub(crate) fn minimum(
    time: Option<&Reading>,
    position: Option<&Reading>,
    motion: Option<&Reading>,
    heading: Option<&Reading>,
) -> Minimum
    requires time { IfSome time (λ r. IsValid r.now) }
    requires position { IfSome position (λ r. IsValid r.now) }
    requires motion { IfSome motion (λ r. IsValid r.now) }
    requires heading { IfSome heading (λ r. IsValid r.now) }
    ensures value { result ≡ values.minimum_of (lent time.entry) (lent position.entry) (lent motion.entry) (lent heading.entry) }
    ensures valid { IsMinimum result }
{
    Minimum {
        time: time_in(time),
        date: date_in(time),
        latitude: latitude_in(position),
        longitude: longitude_in(position),
        speed: speed_in(motion),
        course: course_in(motion),
        variation: variation_in(heading),
    }
}

fn time_in(reading: Option<&Reading>) -> Option<i64>
    ensures { result ≡ values.time_in (lent reading.entry) }
{
    match reading {
        Some(Reading::Time { time, .. }) => *time,
        _ => None,
    }
}

fn date_in(reading: Option<&Reading>) -> Option<i64>
    requires { IfSome reading (λ r. IsValid r.now) }
    ensures value { result ≡ values.date_in (lent reading.entry) }
    ensures valid { Admits date_range result }
{
    match reading {
        Some(Reading::Time { date, .. }) => *date,
        _ => None,
    }
}

fn latitude_in(reading: Option<&Reading>) -> Option<i64>
    requires { IfSome reading (λ r. IsValid r.now) }
    ensures value { result ≡ values.latitude_in (lent reading.entry) }
    ensures valid { Admits latitude_range result }
{
    match reading {
        Some(Reading::Position { latitude, .. }) => *latitude,
        _ => None,
    }
}

fn longitude_in(reading: Option<&Reading>) -> Option<i64>
    requires { IfSome reading (λ r. IsValid r.now) }
    ensures value { result ≡ values.longitude_in (lent reading.entry) }
    ensures valid { Admits longitude_range result }
{
    match reading {
        Some(Reading::Position { longitude, .. }) => *longitude,
        _ => None,
    }
}

fn speed_in(reading: Option<&Reading>) -> Option<i64>
    requires { IfSome reading (λ r. IsValid r.now) }
    ensures value { result ≡ values.speed_in (lent reading.entry) }
    ensures valid { Admits speed_range result }
{
    match reading {
        Some(Reading::CourseSpeed { speed, .. }) => *speed,
        _ => None,
    }
}

/// A course that is true, and not magnetic.
fn course_in(reading: Option<&Reading>) -> Option<i64>
    ensures { result ≡ values.course_in (lent reading.entry) }
{
    match reading {
        Some(
            Reading::CourseSpeed {
                magnetic: false,
                course,
                ..
            },
        ) => *course,
        _ => None,
    }
}

fn variation_in(reading: Option<&Reading>) -> Option<i64>
    requires { IfSome reading (λ r. IsValid r.now) }
    ensures value { result ≡ values.variation_in (lent reading.entry) }
    ensures valid { Admits deviation result }
{
    match reading {
        Some(Reading::HeadingMagnetic { variation, .. }) => *variation,
        _ => None,
    }
}
