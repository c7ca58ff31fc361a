//! Facts that a type's invariant keeps. Each function does nothing: its contract is the fact, which a caller tells the
//! prover by calling it.
ghost use Rattle.std.specs.Prelude.{IfSome};
ghost use Rattle.fed_stamp.specs.declared.rosters.TheConstants.{MAX_NODES};
ghost use Rattle.fed_model.specs.declared.limits.TheConstants.{MAX_LIMIT};
ghost use Rattle.fed_model.specs.declared.moments.TheConstants.{MAX_MOMENT};
ghost use Rattle.fed_model.specs.Ranges.{IsFrom, IsAccount, IsName, IsPriority, AreChanges, AreValues, IsRanged};

use crate::accounts::Account;
use crate::askers::Who;
use crate::commands::Command;
use crate::limits::Limit;
use crate::moments::Moment;
use crate::node_counts::Nodes;
use crate::priorities::Priority;
use crate::values::{Changes, JobValues};
use fed_stamp::{Word, site_is_in_range, word_is_name};

/// A priority is from `MIN_PRIORITY` to `MAX_PRIORITY`.
pub fn priority_is_ranged(priority: Priority)
    ensures { IsPriority priority }
{
    let _number = priority.get();
}

/// A number of nodes is from 1 to `MAX_NODES`.
pub fn nodes_are_ranged(nodes: Nodes)
    ensures { IsFrom 1 MAX_NODES nodes }
{
    let _number = nodes.get();
}

/// A limit is from 1 to `MAX_LIMIT`.
pub fn limit_is_ranged(limit: Limit)
    ensures { IsFrom 1 MAX_LIMIT limit }
{
    let _seconds = limit.get();
}

/// An account is empty or a name.
pub fn account_is_ranged(account: &Account)
    ensures { IsAccount account.now }
{
    let _text = account.as_str();
}

/// A moment is at most `MAX_MOMENT`.
pub fn moment_is_ranged(moment: Moment)
    ensures { IsFrom 0 MAX_MOMENT moment }
{
    let _second = moment.get();
}

fn new_name_is_ranged(name: &Option<Word>)
    ensures { IfSome name.now IsName }
{
    if let Some(name) = name {
        word_is_name(name);
    }
}

fn new_priority_is_ranged(priority: Option<Priority>)
    ensures { IfSome priority IsPriority }
{
    if let Some(priority) = priority {
        priority_is_ranged(priority);
    }
}

fn new_nodes_are_ranged(nodes: Option<Nodes>)
    ensures { IfSome nodes (IsFrom 1 MAX_NODES) }
{
    if let Some(nodes) = nodes {
        nodes_are_ranged(nodes);
    }
}

fn new_limit_is_ranged(limit: Option<Limit>)
    ensures { IfSome limit (IsFrom 1 MAX_LIMIT) }
{
    if let Some(limit) = limit {
        limit_is_ranged(limit);
    }
}

fn new_account_is_ranged(account: &Option<Account>)
    ensures { IfSome account.now IsAccount }
{
    if let Some(account) = account {
        account_is_ranged(account);
    }
}

/// The values that a job is submitted with are in range.
pub fn values_are_ranged(values: &JobValues)
    ensures { AreValues values.now }
{
    word_is_name(&values.name);
    priority_is_ranged(values.priority);
    nodes_are_ranged(values.nodes);
    limit_is_ranged(values.limit);
    account_is_ranged(&values.account);
}

/// The values that are set are in range.
pub fn changes_are_ranged(changes: &Changes)
    ensures { AreChanges changes.now }
{
    new_name_is_ranged(&changes.name);
    new_priority_is_ranged(changes.priority);
    new_nodes_are_ranged(changes.nodes);
    new_limit_is_ranged(changes.limit);
    new_account_is_ranged(&changes.account);
}

/// What somebody asks for has its values in range.
pub fn commands_are_ranged(who: &Who, command: &Command)
    ensures { IsRanged who.now command.now }
{
    match command {
        Command::Submit { values, .. } => {
            word_is_name(&who.user);
            values_are_ranged(values);
        }
        Command::Alter { changes, .. } => changes_are_ranged(changes),
        Command::Grant { asker, .. } => site_is_in_range(*asker),
        Command::Begin { moment, .. } => moment_is_ranged(*moment),
        Command::Finish { moment, status, .. } => {
            moment_is_ranged(*moment);
            // it is read, which tells that it is a `u8`
            let _status = *status;
        }
        Command::Reserve { window } => site_is_in_range(window.site),
        _ => {}
    }
}
