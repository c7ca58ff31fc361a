//! What an event does to the replicas and the packets of a world.
ghost use Rattle.std.specs.Prelude.{◌≡◌, ◌≢◌, ◌≤◌, ℕ, List, length, Ok, IfOk, OnErr};
ghost use Rattle.fed_model.specs.declared.refusals.Refusal.{Refusal};
ghost use Rattle.fed_stamp.specs.declared.sites.TheConstants.{SITES};
ghost use Rattle.fed_model.specs.declared.events.Event.{Event};
ghost use Rattle.fed_model.specs.declared.events.Event.TheVariants.{Do, Ship, Take};
ghost use Rattle.fed_model.specs.declared.outcomes.Outcome.TheVariants as Outcome;
ghost use Rattle.fed_world.specs.Kept.{AreReplicas, AreTexts};
ghost use Rattle.fed_model.specs.RangedEvents.{AreRanged, IsRangedEvent};
ghost use Rattle.fed_model.specs.Run.{run, step};

use crate::texts::Text;
use fed_lattice::NoMemory;
use fed_model::{Event, Outcome, commands_are_ranged};
use fed_record::{Command, Who};
use fed_replica::Replica;
use fed_stamp::SiteId;
use fed_wire::{read, told_packets_are_within_limits, write};
use std::alloc::Global;

/// A site is asked to do a command.
pub(crate) fn act_at(
    replicas: &mut [Replica],
    site: SiteId,
    who: &Who,
    command: &Command,
) -> Result<Outcome, NoMemory>
    ensures done { IfOk result (λ o. (n : ℕ) (events : List Event) → n ≤ SITES → AreReplicas n (run n events) replicas.old →
        (o ≡ (step n (run n events) (Do site who.now command.now)).outcome) ×
        AreReplicas n (step n (run n events) (Do site who.now command.now)).after replicas.new) }
    ensures told { result ≢ Ok (Outcome.Refused Refusal.NoMemory) }
    // a refusal is told as such, and never as want of memory
    ensures memory { OnErr result ((n : ℕ) (events : List Event) → n ≤ SITES → AreReplicas n (run n events) replicas.old →
        (refusal : Refusal) → (step n (run n events) (Do site who.now command.now)).outcome ≡ Outcome.Refused refusal →
        refusal ≡ Refusal.NoMemory) }
    ensures unchanged { OnErr result (replicas.new ≡ replicas.old) }
{
    let index = site.get() as usize;
    if index >= replicas.len() {
        return Ok(Outcome::NoSite);
    }
    let answered = replicas[index].answer(who, command)?;
    Ok(answered.outcome())
}

/// A site makes a packet for a site.
pub(crate) fn ship_at(
    alloc: Global,
    replicas: &[Replica],
    texts: &mut Vec<Text>,
    site: SiteId,
    to: SiteId,
) -> Result<Outcome, NoMemory>
    ensures done { IfOk result (λ o. (n : ℕ) (events : List Event) → n ≤ SITES → AreRanged events →
        AreReplicas n (run n events) replicas.now → AreTexts (run n events).packets texts.old.items →
        (o ≡ (step n (run n events) (Ship site to)).outcome) ×
        AreTexts (step n (run n events) (Ship site to)).after.packets texts.new.items) }
    ensures told { result ≢ Ok (Outcome.Refused Refusal.NoMemory) }
    ensures unchanged { OnErr result (texts.new.items ≡ texts.old.items) }
{
    let index = site.get() as usize;
    let addressee = to.get() as usize;
    if index >= replicas.len() || addressee >= replicas.len() {
        return Ok(Outcome::NoSite);
    }
    let packet = replicas[index].ship(to)?;
    told_packets_are_within_limits(&packet);
    let text = Text::new(write(alloc, &packet)?);
    texts.push(text)?;
    Ok(Outcome::Packet(texts.len() as u64))
}

/// A site takes the packet with the number, which is read from its text.
pub(crate) fn take_at(
    alloc: Global,
    replicas: &mut [Replica],
    texts: &[Text],
    site: SiteId,
    number: u64,
) -> Result<Outcome, NoMemory>
    ensures done { IfOk result (λ o. (n : ℕ) (events : List Event) → n ≤ SITES → AreReplicas n (run n events) replicas.old →
        AreTexts (run n events).packets texts.now →
        (o ≡ (step n (run n events) (Take site number)).outcome) ×
        AreReplicas n (step n (run n events) (Take site number)).after replicas.new) }
    ensures told { result ≢ Ok (Outcome.Refused Refusal.NoMemory) }
    ensures unchanged { OnErr result (replicas.new ≡ replicas.old) }
{
    let index = site.get() as usize;
    if index >= replicas.len() {
        return Ok(Outcome::NoSite);
    }
    if number == 0 || number > texts.len() as u64 {
        return Ok(Outcome::NoPacket);
    }
    let packet_index = (number - 1) as usize;
    // The text is of a packet within limits: that it can't be read is want of memory.
    let Ok(packet) = read(alloc, texts[packet_index].bytes()) else {
        return Err(NoMemory);
    };
    let received = replicas[index].receive(&packet)?;
    Ok(received.outcome())
}

/// The event happens.
pub(crate) fn run_event(
    alloc: Global,
    replicas: &mut [Replica],
    texts: &mut Vec<Text>,
    event: &Event,
) -> Result<Outcome, NoMemory>
    ensures done { IfOk result (λ o. (n : ℕ) (events : List Event) → n ≤ SITES → AreRanged events →
        AreReplicas n (run n events) replicas.old → AreTexts (run n events).packets texts.old.items →
        (o ≡ (step n (run n events) event.now).outcome) ×
        AreReplicas n (step n (run n events) event.now).after replicas.new ×
        AreTexts (step n (run n events) event.now).after.packets texts.new.items) }
    ensures told { result ≢ Ok (Outcome.Refused Refusal.NoMemory) }
    ensures replicas { OnErr result (replicas.new ≡ replicas.old) }
    ensures texts { OnErr result (texts.new.items ≡ texts.old.items) }
{
    match event {
        Event::Do { site, who, command } => act_at(replicas, *site, who, command),
        Event::Ship { site, to } => ship_at(alloc, replicas, texts, *site, *to),
        Event::Take { site, packet } => take_at(alloc, replicas, texts, *site, *packet),
    }
}

/// The values of an event are in range: each is kept in its range by its type.
pub(crate) fn events_are_ranged(event: &Event)
    ensures { IsRangedEvent event.now }
{
    if let Event::Do { who, command, .. } = event {
        commands_are_ranged(who, command);
    }
}
