//! A link in memory that fails at the calls that it is told to.
use crate::attached::Attached;
use crate::failures::Failures;
use crate::handover::Handover;
use crate::incoming::arrival_at;
use crate::{Arrival, Failed, LARGEST_ARRIVAL, Link, Routes};
use sentence_text::Group;
use std::alloc::{AllocError, Global};
use std::marker::Model;

/// A link in memory. What comes is a script. It tells what it was handed for as long as that is no more
/// than a number of pairs and of bytes, and its receives and its sends are fewer than 2^64 each.
#[derive(Drop)]
pub struct MemLink {
    script: Vec<Option<Vec<u8>>>,
    receives: Failures,
    sends: Failures,
    attach_fails: bool,
    attach_faults: u64,
    over: Handover,
    attached: Option<Attached>,
}

impl Model for MemLink {
    ghost use Rattle.std.specs.Prelude.{◌≡◌, map, All, IsSome};
    ghost use Rattle.gate_outside.specs.LinkMemory.{arrival_of, IsArrival};
    ghost use Rattle.gate_outside.specs.MemLink.{MemTraffic, failed_of};

    ghost Value = { MemTraffic };

    ghost view = { λ l. record {
      script = map arrival_of l.script.items;
      receives = l.receives;
      sends = l.sends;
      attach_fails = l.attach_fails;
      attach_faults = l.attach_faults;
      over = l.over;
      attached = l.attached;
    } };

    ghost invariant = { λ l. All IsArrival l.script.items
        × (IsSome l.over.handed → l.receives.faults ≡ failed_of l.receives.failing l.receives.calls) };
}

impl MemLink {
    ghost use Rattle.std.specs.Prelude.{◌≡◌, [], Some, None, IfOk, IsOk, IsSome, IsTrue, ◌↔◌, map, All, option_map};
    ghost use Rattle.gate_outside.specs.LinkMemory.{arrival_of, IsArrival, pair_at};
    ghost use Rattle.gate_outside.specs.MemLink.{mem_traffic_of};

    /// A link that was handed nothing yet. It tells up to `sends` pairs with `room` bytes in all, which
    /// are reserved here: with none of either it takes no memory, and no other call takes any. Each
    /// receive gives the next entry of the script, in which None is nothing, and nothing once it has
    /// ended. Each attach fails where `attach_fails` says so, and the receives and the sends whose
    /// numbers are listed, each kind counted from 1, fail. A receive that fails takes nothing from the
    /// script.
    pub fn of(
        alloc: Global,
        room: u32,
        sends: u32,
        script: Vec<Option<Vec<u8>>>,
        attach_fails: bool,
        failing_receives: Vec<u32>,
        failing_sends: Vec<u32>,
    ) -> Result<MemLink, AllocError>
        requires { All IsArrival script.items }
        ensures empty { IfOk result (λ link. link ≡ record {
          script = map arrival_of script.items;
          receives = record { failing = failing_receives.items; calls = 0; faults = 0 };
          sends = record { failing = failing_sends.items; calls = 0; faults = 0 };
          attach_fails = attach_fails;
          attach_faults = 0;
          over = record { handed = Some []; room = room; most = sends };
          attached = None;
        }) }
        ensures succeeds { room ≡ 0 → sends ≡ 0 → IsOk result }
    {
        Ok(MemLink {
            script,
            receives: Failures::at(failing_receives),
            sends: Failures::at(failing_sends),
            attach_fails,
            attach_faults: 0,
            over: Handover::with_room(alloc, room, sends)?,
            attached: None,
        })
    }

    /// A pair that was handed over and is told, by its place, counted from 0. None exactly beyond what
    /// is told.
    pub fn handed(&self, place: usize) -> Option<(Group, &[u8])>
        ensures { option_map (λ p. (p.0, p.1.now)) result ≡ pair_at self.now.over.handed place }
    {
        self.over.pair(place)
    }

    /// Whether its traffic is told.
    pub fn tells(&self) -> bool
        ensures { IsTrue result ↔ IsSome (mem_traffic_of self.now) }
    {
        self.over.tells()
    }
}

impl Link for MemLink {
    ghost use Rattle.std.specs.Prelude.{◌≡◌, ◌≤◌, length};
    ghost use Rattle.gate_outside.specs.Faults.{HasCause, fails_next};
    ghost use Rattle.gate_outside.specs.Link.{Attaches, Receives, Fits, Sends, attachment, longest_address};
    ghost use Rattle.gate_outside.specs.MemLink.{mem_traffic_of, link_faults, after_attach, after_receive, after_send, FailsBy, GivesNext};

    ghost traffic = { mem_traffic_of };

    ghost fault_count = { link_faults };

    fn faults(&self) -> u64 {
        self.attach_faults
            .saturating_add(self.receives.faults())
            .saturating_add(self.sends.faults())
    }

    fn attach(&mut self, listen: &[u8], routes: &Routes) -> Result<(), Failed>
        requires { length listen.now ≤ longest_address }
        ensures told { Attaches listen.now routes.now (mem_traffic_of self.old) (mem_traffic_of self.new) result }
        ensures cause { HasCause (link_faults self.old) (link_faults self.new) result }
        ensures after { self.new ≡ after_attach self.old (attachment listen.now routes.now) }
        ensures fails { FailsBy self.old.attach_fails result }
    {
        if self.attach_fails {
            self.attach_faults = self.attach_faults.saturating_add(1);
            return Err(Failed);
        }
        self.attached = Some(Attached::at(listen, routes));
        Ok(())
    }

    fn receive(&mut self, buf: &mut [u8; LARGEST_ARRIVAL]) -> Result<Arrival, Failed>
        ensures fits { Fits buf.new result }
        ensures told { Receives buf.new (mem_traffic_of self.old) (mem_traffic_of self.new) result }
        ensures cause { HasCause (link_faults self.old) (link_faults self.new) result }
        ensures after { self.new ≡ after_receive self.old }
        ensures gives { GivesNext self.old buf.new (fails_next self.old.receives) result }
    {
        self.over.stop_if(self.receives.is_last());
        let place = self.receives.passed();
        let failed = self.receives.is_next();
        self.receives.count(failed);
        if failed {
            return Err(Failed);
        }
        Ok(arrival_at(&self.script, place, buf))
    }

    fn send(&mut self, group: Group, bytes: &[u8]) -> Result<(), Failed>
        ensures told { Sends (group, bytes.now) (mem_traffic_of self.old) (mem_traffic_of self.new) result }
        ensures cause { HasCause (link_faults self.old) (link_faults self.new) result }
        ensures after { self.new ≡ after_send self.old (group, bytes.now) }
        ensures fails { FailsBy (fails_next self.old.sends) result }
    {
        self.over.stop_if(self.sends.is_last());
        let failed = self.sends.is_next();
        self.sends.count(failed);
        if failed {
            return Err(Failed);
        }
        self.over.add(group, bytes);
        Ok(())
    }
}
