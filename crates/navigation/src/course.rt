//! Where each plotter goes, and how far it is off its line.
ghost use Rattle.std.specs.Prelude.{◌≡◌, ◌<◌, IfOk, slice_set};
ghost use Rattle.readings.specs.Ranges.{Admits, cross_track};
ghost use Rattle.claim_table.specs.Claims.{places};
ghost use Rattle.navigation.specs.Kept.{course_at, course_forgotten, courses_forgotten, error_with, fresh_distance, is_named, no_courses, with_error, with_leg};

use crate::leg::Goal;
use bus_listener::{Gateway, has_place};
use n2k_id::address::ADDRESSES;
use std::alloc::{AllocError, Global};
use std::marker::Model;

/// An error from the line of a leg.
#[derive(Clone, Copy)]
pub(crate) struct TrackError {
    /// When it came, in microseconds.
    pub(crate) moment: u64,
    /// In 0.01 m.
    pub(crate) distance: Option<i64>,
}

/// The goal that a device named last, and the last error since it named it first.
#[derive(Clone, Copy)]
pub(crate) struct Course {
    pub(crate) goal: Option<Goal>,
    pub(crate) error: Option<TrackError>,
}

/// Nothing was heard.
const NO_COURSE: Course = Course {
    goal: None,
    error: None,
};

impl Course {
    ghost use Rattle.navigation.specs.Kept.{IsCourseSound};

    /// Whether this goal was named last.
    fn is_named(&self, goal: &Goal) -> bool
        ensures { result ≡ is_named goal.now self.now }
    {
        match &self.goal {
            None => false,
            Some(named) => named.is_same(goal),
        }
    }

    /// With a leg that has this goal.
    fn with_leg(&self, goal: &Goal) -> Course
        requires { IsCourseSound self.now }
        ensures value { result ≡ with_leg goal.now self.now }
        ensures sound { IsCourseSound result }
    {
        if self.is_named(goal) {
            return *self;
        }
        Course {
            goal: Some(*goal),
            error: None,
        }
    }

    /// With an error: one that comes before any goal is of none.
    fn with_error(&self, error: TrackError) -> Course
        requires course { IsCourseSound self.now }
        requires error { Admits cross_track error.distance }
        ensures value { result ≡ with_error error self.now }
        ensures sound { IsCourseSound result }
    {
        match self.goal {
            None => *self,
            Some(goal) => Course {
                goal: Some(goal),
                error: Some(error),
            },
        }
    }

    /// The error beside a leg of this goal.
    fn error_with(&self, goal: &Goal, timeout: u32, moment: u64) -> Option<i64>
        requires { IsCourseSound self.now }
        ensures value { result ≡ error_with goal.now timeout moment self.now }
        ensures range { Admits cross_track result }
    {
        if !self.is_named(goal) {
            return None;
        }
        fresh_distance(timeout, moment, &self.error)
    }
}

/// The error, where it isn't older at the moment than the timeout.
fn fresh_distance(timeout: u32, moment: u64, error: &Option<TrackError>) -> Option<i64>
    ensures { result ≡ fresh_distance timeout moment error.now }
{
    match error {
        None => None,
        Some(error) => {
            if moment.saturating_sub(error.moment) <= 1000 * u64::from(timeout) {
                error.distance
            } else {
                None
            }
        }
    }
}

/// The courses of all addresses that a device can have.
#[derive(Drop)]
pub(crate) struct Courses {
    courses: Vec<Course>,
}

impl Model for Courses {
    ghost use Rattle.std.specs.Prelude.{◌≡◌, List, length};
    ghost use Rattle.claim_table.specs.Claims.{places};
    ghost use Rattle.navigation.specs.Kept.{AreCoursesSound};
    ghost use Rattle.navigation.specs.declared.course.Course.{Course};

    ghost Value = { List Course };

    ghost view = { λ c. c.courses.items };

    ghost invariant = { λ c. (length c.courses.items ≡ places) × AreCoursesSound c.courses.items };
}

impl Courses {
    /// With nothing heard of any address.
    pub(crate) fn new(alloc: Global) -> Result<Courses, AllocError>
        ensures { IfOk result (λ c. c ≡ no_courses) }
    {
        let courses = vec![in alloc; NO_COURSE; ADDRESSES]?;
        Ok(Courses { courses })
    }

    /// Whether the address named this goal last.
    pub(crate) fn is_named(&self, source: u8, goal: &Goal) -> bool
        requires { source < places }
        ensures { result ≡ is_named goal.now (course_at self.now source) }
    {
        self.courses[usize::from(source)].is_named(goal)
    }

    /// The error beside a leg of this goal from the address, where it isn't older at the moment than the timeout, which is in milliseconds.
    pub(crate) fn error_with(
        &self,
        source: u8,
        goal: &Goal,
        timeout: u32,
        moment: u64,
    ) -> Option<i64>
        requires { source < places }
        ensures value { result ≡ error_with goal.now timeout moment (course_at self.now source) }
        ensures range { Admits cross_track result }
    {
        self.courses[usize::from(source)].error_with(goal, timeout, moment)
    }

    /// Takes a leg of this goal from the address.
    pub(crate) fn take_leg(&mut self, source: u8, goal: &Goal)
        requires { source < places }
        ensures { self.new ≡ slice_set self.old source (with_leg goal.now (course_at self.old source)) }
    {
        let place = usize::from(source);
        self.courses[place] = self.courses[place].with_leg(goal);
    }

    /// Takes an error from the address.
    pub(crate) fn take_error(&mut self, source: u8, error: TrackError)
        requires place { source < places }
        requires error { Admits cross_track error.distance }
        ensures { self.new ≡ slice_set self.old source (with_error error (course_at self.old source)) }
    {
        let place = usize::from(source);
        self.courses[place] = self.courses[place].with_error(error);
    }

    /// Forgets where the address that was left in the gateway's last step went, and the one that was won.
    pub(crate) fn forget_changed(&mut self, gateway: &Gateway)
        ensures { self.new ≡ courses_forgotten gateway.now.addresses.changed self.old }
    {
        self.forget(gateway.left());
        self.forget(gateway.won());
    }

    fn forget(&mut self, source: Option<u8>)
        ensures { self.new ≡ course_forgotten source self.old }
    {
        match source {
            Some(source) if has_place(source) => self.courses[usize::from(source)] = NO_COURSE,
            _ => {}
        }
    }
}
