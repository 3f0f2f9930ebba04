//! A world and the places of its ends.

ghost use Rattle.std.specs.Prelude.{◌≡◌, ◌<◌, ◌^◌, [], Err, OnErr, IfOk, IfErr, IfNone, IfSome};
ghost use Rattle.endpoint_laws.specs.Agreed.{IsAgreed};
ghost use Rattle.end_places.specs.Seen.{PlacesSeen, no_places};
ghost use Rattle.end_places.specs.Carrying.{carried_of, after_carry, WasCarried};
ghost use Rattle.rendezvous_world.specs.Handing.{MessagesGoOver};
ghost use Rattle.rendezvous_world.specs.History.{history_of};
ghost use Rattle.rendezvous_world.specs.Seen.{group_secrets, setup_at};
ghost use Rattle.rendezvous_world.specs.Sound.{AreBelow, IsSound};
ghost use Rattle.rendezvous_world.specs.Faults.{is_missing};
ghost use Rattle.placed_world.specs.Stepping.{placed, Brings, Does, carried_to, comes_to, placed_fault, RefusedFor, flat, Placed, SteppedFlat, Undone};
ghost use Rattle.placed_world.specs.Taking.{CameTo, IsTaken, told_of, step_told};

use crate::step::{LostLine, PlacedStep};
use end_places::{Carried, Places, PlacesRefusal};
use rendezvous_world::{Step, StepFault, World};
use rtmfp_forms::Address;
use rtmfp_text::Name;
use std::alloc::Global;
use std::marker::Model;
use translators::{News, Rule};

/// A world, and where its ends stand.
#[derive(Drop)]
pub struct PlacedWorld {
    world: World,
    places: Places,
}

impl Model for PlacedWorld {
    ghost use Rattle.rendezvous_world.specs.contracts.world.World as world_type;
    ghost use Rattle.end_places.specs.contracts.places.Places as places_type;
    ghost use Rattle.placed_world.specs.Seen.{PlacedSeen, placed_code};

    ghost Value = { PlacedSeen };

    ghost coded = { placed_code world_type.the_row.coded places_type.the_row.coded };

    ghost view = { λ p. record { world = p.world; places = p.places } };
}

impl PlacedWorld {
    /// A world without ends, at moment 0, and no places. It takes no memory.
    pub fn new(alloc: Global) -> PlacedWorld
        ensures moment { result.world.moment ≡ 0 }
        ensures ends { result.world.ends ≡ [] }
        ensures lines { result.world.lines ≡ [] }
        ensures places { result.places ≡ no_places }
    {
        PlacedWorld {
            world: World::new(alloc),
            places: Places::new(alloc),
        }
    }

    /// Takes one step, which stands on this line of its script, and gives the datagram that it
    /// carried and that didn't arrive, if any. `StepFault` has the reasons for which it is refused,
    /// in their order; `Places` says which translators and places are bad, and a carry is where its
    /// sender has no place. A carry that arrives is forged exactly where the delivery is; it may find
    /// no memory before that is known.
    ///
    /// Where it is refused, the places are as before, also where the world had begun with a
    /// datagram and found no memory.
    pub fn step(&mut self, line: u64, step: &PlacedStep) -> Result<Option<LostLine>, StepFault>
        requires above { AreBelow self.old.world.lines line }
        requires fits { line < 2 ^ 32 }
        ensures ok { IfOk result (λ lost. Placed self.old line step.now lost self.new) }
        ensures refused { IfSome (placed_fault self.old step.now) (λ fault.
            RefusedFor (comes_to self.old step.now) fault result × (self.new ≡ self.old)) }
        ensures memory { IfNone (placed_fault self.old step.now)
            (IfErr result (λ fault. fault ≡ StepFault.Memory)) }
        ensures err { OnErr result (Undone self.old line step.now self.new) }

        // The world has taken the step of its own that this one is, or none.
        ensures flat { IfOk result (λ lost.
            SteppedFlat self.old.world line (flat self.old step.now) self.new.world) }

        ensures sound { IsSound self.new.world }
        ensures agreed { IsAgreed group_secrets (setup_at self.new.world.ends)
            (history_of self.new.world) }
        ensures go_over { MessagesGoOver (setup_at self.new.world.ends)
            (history_of self.new.world) }
    {
        let result = self.take_step(line, step);
        self.keeps();
        result
    }

    /// Tells what holds of the world at any moment.
    fn keeps(&self)
        ensures sound { IsSound self.now.world }
        ensures agreed { IsAgreed group_secrets (setup_at self.now.world.ends)
            (history_of self.now.world) }
        ensures go_over { MessagesGoOver (setup_at self.now.world.ends)
            (history_of self.now.world) }
    {
        let _journal = self.world.journal();
    }

    /// Takes one step, by its kind.
    fn take_step(&mut self, line: u64, step: &PlacedStep) -> Result<Option<LostLine>, StepFault>
        requires above { AreBelow self.old.world.lines line }
        requires fits { line < 2 ^ 32 }
        ensures { IsTaken self.old line (comes_to self.old step.now) result self.new }
    {
        match step {
            PlacedStep::Translator {
                name,
                mapping,
                filter,
                host,
                first,
            } => self.add(line, name, *mapping, *filter, *host, *first),
            PlacedStep::Place { end, at, behind } => self.place(line, *end, at, *behind),
            PlacedStep::Carry { number } => self.carry(line, *number),
            PlacedStep::World(step) => self.step_world(line, step),
        }
    }

    /// Adds a translator.
    fn add(
        &mut self,
        line: u64,
        name: &Name,
        mapping: Rule,
        filter: Rule,
        host: [u8; 4],
        first: u16,
    ) -> Result<Option<LostLine>, StepFault>
        ensures { IsTaken self.old line
            (comes_to self.old (PlacedStep.Translator name.now mapping filter host first)) result
            self.new }
    {
        told_of(self.places.add(name, mapping, filter, host, first))
    }

    /// Places an end.
    fn place(
        &mut self,
        line: u64,
        end: usize,
        at: &Address,
        behind: Option<usize>,
    ) -> Result<Option<LostLine>, StepFault>
        ensures { IsTaken self.old line (comes_to self.old (PlacedStep.Place end at.now behind))
            result self.new }
    {
        if self.is_missing(end) {
            return Err(StepFault::NoEnd);
        }
        told_of(self.places.place(end, at, behind))
    }

    /// Whether there is no end with this number.
    fn is_missing(&self, end: usize) -> bool
        ensures { result ≡ is_missing self.now.world end }
    {
        end >= self.world.named().as_slice().len()
    }

    /// Carries a datagram.
    fn carry(&mut self, line: u64, number: u64) -> Result<Option<LostLine>, StepFault>
        requires above { AreBelow self.old.world.lines line }
        requires fits { line < 2 ^ 32 }
        ensures { IsTaken self.old line (comes_to self.old (PlacedStep.Carry number)) result
            self.new }
    {
        match self.world.sent(number) {
            None => Err(StepFault::NoDatagram),
            Some(sent) => {
                let to = sent.1;
                self.carry_from(line, number, sent.0, &to)
            }
        }
    }

    /// Carries a datagram from its sender to the address that it was sent to.
    fn carry_from(
        &mut self,
        line: u64,
        number: u64,
        sender: usize,
        to: &Address,
    ) -> Result<Option<LostLine>, StepFault>
        requires above { AreBelow self.old.world.lines line }
        requires fits { line < 2 ^ 32 }
        ensures { IsTaken self.old line (carried_to number sender
            (after_carry self.old.places sender to.now)
            (carried_of self.old.places sender to.now)) result self.new }
    {
        let news = self.places.news(sender, to);
        match self.places.carry(sender, to) {
            Ok(carried) => self.come_to(line, number, sender, to, news, &carried),
            Err(refusal) => told_of(Err(refusal)),
        }
    }

    /// Brings what was carried just now to its end, or tells that it was lost.
    fn come_to(
        &mut self,
        line: u64,
        number: u64,
        sender: usize,
        to: &Address,
        news: News,
        carried: &Carried,
    ) -> Result<Option<LostLine>, StepFault>
        requires above { AreBelow self.old.world.lines line }
        requires fits { line < 2 ^ 32 }
        requires came { (before : PlacesSeen) ×
            CameTo before sender to.now news carried.now self.old.places }
        ensures { (before : PlacesSeen) →
            CameTo before sender to.now news carried.now self.old.places →
            IsTaken (placed self.old.world before) line (carried_to number sender
            (after_carry before sender to.now) (carried_of before sender to.now)) result self.new }
    {
        match carried {
            Carried::Lost(lost) => Ok(Some(LostLine {
                end: sender,
                number,
                lost: *lost,
            })),
            Carried::Arrives { end, from } => {
                let brought = Step::Deliver {
                    number,
                    end: *end,
                    from: *from,
                };
                self.deliver(line, sender, to, news, &brought)
            }
        }
    }

    /// Lets the world take the step that brings what was carried just now from this sender; where it
    /// refuses that, what was carried is taken back.
    fn deliver(
        &mut self,
        line: u64,
        sender: usize,
        to: &Address,
        news: News,
        brought: &Step,
    ) -> Result<Option<LostLine>, StepFault>
        requires above { AreBelow self.old.world.lines line }
        requires fits { line < 2 ^ 32 }
        requires carried { (before : PlacesSeen) ×
            WasCarried before sender to.now news self.old.places }
        ensures { (before : PlacesSeen) → WasCarried before sender to.now news self.old.places →
            IsTaken (placed self.old.world before) line (Brings self.old.places brought.now) result
            self.new }
    {
        match self.world.step(line, brought) {
            Ok(()) => Ok(None),
            Err(fault) => {
                self.places.take_back(sender, to, news);
                Err(fault)
            }
        }
    }

    /// Lets the world take a step.
    fn step_world(&mut self, line: u64, step: &Step) -> Result<Option<LostLine>, StepFault>
        requires above { AreBelow self.old.world.lines line }
        requires fits { line < 2 ^ 32 }
        ensures { IsTaken self.old line (Does self.old.places step.now) result self.new }
    {
        step_told(self.world.step(line, step))
    }

    /// The world.
    pub fn world(&self) -> &World
        ensures { result.now ≡ self.now.world }
    {
        &self.world
    }

    /// The places of its ends.
    pub fn places(&self) -> &Places
        ensures { result.now ≡ self.now.places }
    {
        &self.places
    }
}

/// What a change of the places answers as a step.
fn told_of(changed: Result<(), PlacesRefusal>) -> Result<Option<LostLine>, StepFault>
    ensures { result ≡ told_of changed }
{
    match changed {
        Ok(()) => Ok(None),
        Err(PlacesRefusal::Bad) => Err(StepFault::BadStep),
        Err(PlacesRefusal::Memory) => Err(StepFault::Memory),
    }
}

/// What a step of the world answers.
fn step_told(taken: Result<(), StepFault>) -> Result<Option<LostLine>, StepFault>
    ensures { result ≡ step_told taken }
{
    match taken {
        Ok(()) => Ok(None),
        Err(fault) => Err(fault),
    }
}
