//! The clock of a node.
ghost use Rattle.std.specs.Prelude.{◌≡◌, ◌↔◌, ◌+◌, ◌++◌, map, IfErr, IfOk, IsTrue, OnErr, OnOk};
ghost use Rattle.std.specs.List.{flat_map};
ghost use Rattle.sd_wire.specs.contents.Values.{view_entry};
ghost use Rattle.someip_node_rules.specs.rules.Ticking.{find_of};
ghost use Rattle.someip_node_engine.specs.Handled.{Handled};
ghost use Rattle.someip_node_rules.specs.rules.Inputs as input;
ghost use Rattle.someip_node_rules.specs.rules.Inputs.{tick_plan};
ghost use Rattle.someip_node_rules.specs.histories.Items.{changed, Ticked};
ghost use Rattle.sd_core.specs.SeekTables.{KnowsWanted};
ghost use Rattle.someip_node_engine.specs.Passings.{BringsNothing, HasPassed, IsNothing};
ghost use Rattle.someip_node_engine.specs.Passings.{entries_of, told_of};
ghost use Rattle.someip_node_rules.specs.rules.Plans.{plain, run};
ghost use Rattle.someip_node_rules.specs.forms.Receivers.{messages_plan_to};
ghost use Rattle.someip_node_engine.specs.Working.{told_all, working};
ghost use Rattle.someip_node_rules.specs.declared.error.NodeError.TheVariants as fault;
ghost use Rattle.someip_node_rules.specs.declared.receiver.Receiver.TheVariants.{Group};
ghost use Rattle.someip_node_rules.specs.declared.output.Output.TheVariants.{TimedOut};

use crate::endings::tell_endings;
use crate::engine::Engine;
use crate::entry_making::find_entry;
use crate::outputs::Giving;
use crate::passed::Passed;
use sd_core::InstanceId;
use sd_wire::Entry;
use someip_node_rules::{NodeError, Output, Receiver};
use someip_rpc::CallKey;
use someip_tables::Moment;
use someip_tp::Reassembly;
use std::alloc::AllocError;
use std::collections::BTreeSet;

impl<R: Reassembly> Engine<R> {
    /// Lets the clock go on by so many milliseconds.
    pub fn take_tick(&mut self, ms: u64, giving: &mut Giving) -> Result<(), NodeError>
        ensures handled { Handled (input.Tick ms) self.old giving.old result self.new giving.new }
        ensures grows { IfErr result (λ error. error ≡ fault.OutOfMemory
            → KnowsWanted self.old.seek × ¬ (BringsNothing (self.old.clock + ms) self.old)) }
        ensures config { self.new.config ≡ self.old.config }
    {
        let Some(now) = self.clock.after(ms) else {
            return Err(NodeError::ClockPast);
        };
        self.tick(ms, now, giving)?;
        Ok(())
    }

    /// The clock goes on by so many milliseconds, to this moment. A moment that brings nothing takes no
    /// memory.
    pub(crate) fn tick(
        &mut self,
        ms: u64,
        now: Moment,
        giving: &mut Giving,
    ) -> Result<(), AllocError>
        requires { now ≡ self.old.clock + ms }
        ensures work { OnOk result (working self.new giving.new
            ≡ run plain (tick_plan ms) (working self.old giving.old)) }
        ensures wanted { KnowsWanted self.old.seek }
        ensures grows { OnErr result (¬ (BringsNothing now self.old)) }
        ensures config { self.new.config ≡ self.old.config }
    {
        let passed = self.pass(ms, now)?;
        if passed.is_nothing() {
            return Ok(());
        }
        self.give_passed(&passed, giving)
    }

    /// Tells what ended, and sends the Offers and Finds that are due.
    fn give_passed(&mut self, passed: &Passed, giving: &mut Giving) -> Result<(), AllocError>
        ensures work { OnOk result (working self.new giving.new
            ≡ run plain (messages_plan_to Group (entries_of self.old passed.now))
            (told_all (told_of self.old.config passed.now) (working self.old giving.old))) }
        ensures config { self.new.config ≡ self.old.config }
    {
        self.tell_passed(passed, &mut giving.outputs)?;
        let entries = self.due_entries(passed)?;
        self.send_entries(Receiver::Group, &entries, giving)
    }

    /// Lets the clock go on, and answers what that brings.
    fn pass(&mut self, ms: u64, now: Moment) -> Result<Passed, AllocError>
        requires { now ≡ self.old.clock + ms }
        ensures passed { IfOk result (HasPassed now self.old) }
        ensures ticked { OnOk result (self.new ≡ changed self.old (Ticked ms)) }
        ensures wanted { KnowsWanted self.old.seek }
        ensures grows { OnErr result (¬ (BringsNothing now self.old)) }
        ensures config { self.new.config ≡ self.old.config }
    {
        let phases = self.config.common.phases;
        let wanted = self.seeker.tick(now, phases)?;
        let calls = self.client.tick(now)?;
        let lapsed = self.subscriptions.tick(now, &wanted.ended)?;
        let offers = self.offers.tick(now, phases)?;
        self.subscribers.tick(now);
        self.store.expire(now.as_millis());
        self.clock = now;
        Ok(Passed {
            calls,
            gone: wanted.ended,
            lapsed,
            offers,
            finds: wanted.finds,
        })
    }

    /// Tells what ended.
    fn tell_passed(&self, passed: &Passed, outputs: &mut Vec<Output>) -> Result<(), AllocError>
        ensures { OnOk result (outputs.new.items
            ≡ outputs.old.items ++ told_of self.now.config passed.now) }
    {
        tell_timed_out(&passed.calls, outputs)?;
        tell_endings(&self.config, &passed.gone, &passed.lapsed, outputs)
    }

    /// The Offers and Finds that go out.
    fn due_entries(&self, passed: &Passed) -> Result<Vec<Entry>, AllocError>
        ensures { IfOk result (λ entries.
            map view_entry entries.items ≡ entries_of self.now passed.now) }
    {
        let mut entries = Vec::new(self.alloc);
        self.push_offers(&passed.offers, &mut entries)?;
        self.push_finds(&passed.finds, &mut entries)?;
        Ok(entries)
    }

    /// Adds the Finds of instances.
    fn push_finds(
        &self,
        instances: &[InstanceId],
        entries: &mut Vec<Entry>,
    ) -> Result<(), AllocError>
        ensures { OnOk result (map view_entry entries.new.items
            ≡ map view_entry entries.old.items ++ flat_map (find_of self.now) instances.now) }
    {
        for instance in instances {
            self.push_find(*instance, entries)?;
        }
        Ok(())
    }

    /// Adds the Find of an instance.
    fn push_find(&self, instance: InstanceId, entries: &mut Vec<Entry>) -> Result<(), AllocError>
        ensures { OnOk result (map view_entry entries.new.items
            ≡ map view_entry entries.old.items ++ find_of self.now instance) }
    {
        if let Some(want) = self.config.wants.get(&instance) {
            entries.push(find_entry(self.alloc, instance, want.major))?;
        }
        Ok(())
    }
}

impl Passed {
    /// Whether nothing ends and nothing is due.
    pub(crate) fn is_nothing(&self) -> bool
        ensures { IsTrue result ↔ IsNothing self.now }
    {
        self.calls.is_empty()
            && self.gone.is_empty()
            && self.lapsed.is_empty()
            && self.offers.is_empty()
            && self.finds.is_empty()
    }
}

/// Tells the calls whose time has passed.
fn tell_timed_out(calls: &BTreeSet<CallKey>, outputs: &mut Vec<Output>) -> Result<(), AllocError>
    ensures { OnOk result (outputs.new.items ≡ outputs.old.items
        ++ map (λ call. TimedOut call.message call.session) calls.now.keys) }
{
    for call in calls {
        outputs.push(Output::TimedOut {
            message: call.message,
            session: call.session,
        })?;
    }
    Ok(())
}
