/// What RMC says, as raw values in the units of readings. A value is `None` where it isn't available.
#[derive(Clone, Copy)]
pub struct Minimum {
    pub time: Option<i64>,
    pub date: Option<i64>,
    pub latitude: Option<i64>,
    pub longitude: Option<i64>,
    /// Over ground.
    pub speed: Option<i64>,
    /// Over ground, clockwise from true north.
    pub course: Option<i64>,
    /// East is positive.
    pub variation: Option<i64>,
}
