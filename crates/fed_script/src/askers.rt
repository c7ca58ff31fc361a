//! Who asks in a line: a user, with a role, or the scheduler of the site.
ghost use Rattle.std.specs.Prelude.{◌≡◌, None};
ghost use Rattle.fed_script.specs.Asker.{role_in, scheduler as scheduler_of_site, user_in, who_in};
ghost use Rattle.fed_script.specs.Verb.{verb_named};

use crate::verbs::Verb;
use fed_model::{Role, Who};
use fed_stamp::Word;

/// The role that a word names.
fn read_role(word: &str) -> Option<Role>
    ensures { result ≡ role_in word.now }
{
    match word {
        "operator" => Some(Role::Operator),
        "admin" => Some(Role::Administrator),
        _ => None,
    }
}

/// The user of this name, which is no verb, in a role.
fn named_user(role: Role, name: &str) -> Option<Who>
    requires { verb_named name.now ≡ None }
    ensures { result ≡ user_in role name.now }
{
    let user = Word::new(name)?;
    Some(Who { user, role })
}

/// The user of this name, in a role.
fn read_user(role: Role, name: &str) -> Option<Who>
    ensures { result ≡ user_in role name.now }
{
    match Verb::named(name) {
        Some(_) => None,
        None => named_user(role, name),
    }
}

/// Who asks by a word that is no verb: `USER`, or `USER/ROLE`, where ROLE is `operator` or `admin`. Without it the role is
/// that of a user. `None` where the word has another form, or USER isn't a name or is a verb.
pub(crate) fn read_who(word: &str) -> Option<Who>
    requires { verb_named word.now ≡ None }
    ensures { result ≡ who_in word.now }
{
    // most words are the name of a user alone, and no name has a slash
    if let Some(who) = named_user(Role::User, word) {
        return Some(who);
    }
    let (name, role) = word.split_once('/')?;
    read_user(read_role(role)?, name)
}

/// The site's own scheduler.
pub(crate) fn scheduler() -> Who
    ensures { result ≡ scheduler_of_site }
{
    Who {
        user: Word::new("scheduler").unwrap(),
        role: Role::User,
    }
}
