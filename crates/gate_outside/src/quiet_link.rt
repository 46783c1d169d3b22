//! A link in memory that never fails.
use crate::attached::Attached;
use crate::handover::Handover;
use crate::incoming::arrival_at;
use crate::{Arrival, Failed, LARGEST_ARRIVAL, Link, Routes};
use sentence_text::Group;
use std::alloc::{AllocError, Global};
use std::marker::Model;

/// A link in memory whose calls never fail. What comes is a script. It tells what it was handed for as
/// long as that is no more than a number of pairs and of bytes, and its receives are fewer than 2^64.
#[derive(Drop)]
pub struct QuietLink {
    script: Vec<Option<Vec<u8>>>,
    receives: u64,
    over: Handover,
    attached: Option<Attached>,
}

impl Model for QuietLink {
    ghost use Rattle.std.specs.Prelude.{map, All};
    ghost use Rattle.gate_outside.specs.LinkMemory.{QuietTraffic, arrival_of, IsArrival};

    ghost Value = { QuietTraffic };

    ghost view = { λ l. record {
      script = map arrival_of l.script.items;
      receives = l.receives;
      over = l.over;
      attached = l.attached;
    } };

    ghost invariant = { λ l. All IsArrival l.script.items };
}

impl QuietLink {
    ghost use Rattle.std.specs.Prelude.{◌≡◌, [], Some, None, IfOk, IsOk, IsSome, IsTrue, ◌↔◌, map, All, option_map};
    ghost use Rattle.gate_outside.specs.LinkMemory.{arrival_of, IsArrival, pair_at, traffic_of};

    /// A link that was handed nothing yet. It tells up to `sends` pairs with `room` bytes in all, which
    /// are reserved here: with none of either it takes no memory, and no other call takes any. Each
    /// receive gives the next entry of the script, in which None is nothing, and nothing once it has
    /// ended.
    pub fn of(
        alloc: Global,
        room: u32,
        sends: u32,
        script: Vec<Option<Vec<u8>>>,
    ) -> Result<QuietLink, AllocError>
        requires { All IsArrival script.items }
        ensures empty { IfOk result (λ link. link ≡ record {
          script = map arrival_of script.items;
          receives = 0;
          over = record { handed = Some []; room = room; most = sends };
          attached = None;
        }) }
        ensures succeeds { room ≡ 0 → sends ≡ 0 → IsOk result }
    {
        Ok(QuietLink {
            script,
            receives: 0,
            over: Handover::with_room(alloc, room, sends)?,
            attached: None,
        })
    }

    /// A pair that was handed over and is told, by its place, counted from 0. None exactly beyond what
    /// is told.
    pub fn handed(&self, place: usize) -> Option<(Group, &[u8])>
        ensures { option_map (λ p. (p.0, p.1.now)) result ≡ pair_at self.now.over.handed place }
    {
        self.over.pair(place)
    }

    /// Whether its traffic is told.
    pub fn tells(&self) -> bool
        ensures { IsTrue result ↔ IsSome (traffic_of self.now) }
    {
        self.over.tells()
    }
}

impl Link for QuietLink {
    ghost use Rattle.gate_outside.specs.LinkMemory.{traffic_of};

    ghost traffic = { traffic_of };

    ghost fault_count = { λ _. 0 };

    fn faults(&self) -> u64 {
        0
    }

    fn attach(&mut self, listen: &[u8], routes: &Routes) -> Result<(), Failed> {
        self.attached = Some(Attached::at(listen, routes));
        Ok(())
    }

    fn receive(&mut self, buf: &mut [u8; LARGEST_ARRIVAL]) -> Result<Arrival, Failed> {
        let arrival = arrival_at(&self.script, self.receives, buf);
        match self.receives.checked_add(1) {
            Some(receives) => self.receives = receives,
            None => self.over.stop(),
        }
        Ok(arrival)
    }

    fn send(&mut self, group: Group, bytes: &[u8]) -> Result<(), Failed> {
        self.over.add(group, bytes);
        Ok(())
    }
}
