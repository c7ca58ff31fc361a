//! What a site has seen of the others, and what they are known to have seen of it.
ghost use Rattle.std.specs.Prelude.{◌≡◌, IfOk, length, map, string_bytes};
ghost use Rattle.std.specs.List.{range_with_len};
ghost use Rattle.serde_json.specs.View.{view};
ghost use Rattle.fed_json.specs.Values.{list_value};
ghost use Rattle.fed_replica.specs.State.{state_of};
ghost use Rattle.fed_site.specs.Seen.{counter_known, json_of_seen, line_of_seen, lines_of_seen, seen_data};

use fed_lattice::NoMemory;
use fed_looks::json_line;
use fed_qstat::site_text;
use fed_replica::Replica;
use fed_stamp::{Roster, SiteId, site_is_in_range};
use serde_json::{Value, json};
use std::alloc::{AllocError, Global};

/// The counter of the replica's own site that a site is known to have seen.
fn known_counter(replica: &Replica, site: SiteId) -> u64
    ensures { result ≡ counter_known (state_of replica.now) site }
{
    site_is_in_range(site);
    if site == replica.site() {
        replica.board().version().get(site)
    } else {
        replica.heard(site).get(replica.site())
    }
}

fn seen_line(
    alloc: Global,
    roster: &Roster,
    replica: &Replica,
    site: SiteId,
) -> Result<String, AllocError>
    ensures { IfOk result (λ text. string_bytes text ≡ line_of_seen roster.now (state_of replica.now) site) }
{
    let name = site_text(alloc, roster, site)?;
    let seen = replica.board().version().get(site);
    let known = known_counter(replica, site);
    format!(in alloc; "{name} {seen} {known}\n")
}

/// A line for each site of the roster, in the order of their numbers: its name, the counter that the replica has seen of
/// it, and the counter of the replica's own site that it is known to have seen, by what was heard from it. A site has seen
/// all of its own.
pub fn seen_lines(alloc: Global, roster: &Roster, replica: &Replica) -> Result<String, NoMemory>
    ensures { IfOk result (λ text. string_bytes text ≡ lines_of_seen roster.now (state_of replica.now)) }
{
    let mut text = String::new(alloc);
    for number in 0..roster.len() as u8 {
        let site = SiteId::new(number).unwrap();
        let line = seen_line(alloc, roster, replica, site)?;
        text.push_str(line.as_str())?;
    }
    Ok(text)
}

fn seen_value(
    alloc: Global,
    roster: &Roster,
    replica: &Replica,
    site: SiteId,
) -> Result<Value, AllocError>
    ensures { IfOk result (λ v. view v ≡ seen_data roster.now (state_of replica.now) site) }
{
    let name = site_text(alloc, roster, site)?;
    let seen = replica.board().version().get(site);
    let known = known_counter(replica, site);
    json!(in alloc; { "known": seen, "site": name.as_str(), "told": known })
}

fn seen_values(alloc: Global, roster: &Roster, replica: &Replica) -> Result<Value, AllocError>
    ensures { IfOk result (λ v. view v ≡
        list_value (map (seen_data roster.now (state_of replica.now)) (range_with_len 0 (length roster.now)))) }
{
    let mut values = Vec::new(alloc);
    for number in 0..roster.len() as u8 {
        let site = SiteId::new(number).unwrap();
        values.push(seen_value(alloc, roster, replica, site)?)?;
    }
    Ok(Value::Array(values))
}

/// What `seen_lines` tells, as one line: a JSON array with an object for each site, of its name `site`, of the counter
/// `known` that the replica has seen of it, and of the counter `told` of the replica's own site that it is known to have
/// seen. The only error is `NoMemory`.
pub(crate) fn seen_json(
    alloc: Global,
    roster: &Roster,
    replica: &Replica,
) -> Result<String, NoMemory>
    ensures { IfOk result (λ text. string_bytes text ≡ json_of_seen roster.now (state_of replica.now)) }
{
    let value = seen_values(alloc, roster, replica)?;
    Ok(json_line(alloc, &value)?)
}
