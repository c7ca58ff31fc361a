//! The account of a job.
ghost use Rattle.std.specs.Prelude.{◌≡◌, Some};
ghost use Rattle.fed_model.specs.Account.{account_of, text_of};

use fed_stamp::Word;
use std::marker::Model;

/// What a job is charged to: empty, or a name of 1 to 15 characters. Accounts are ordered as texts.
#[derive(Clone, Copy, PartialEq, Eq, PartialOrd, Ord, Debug)]
pub struct Account {
    name: Option<Word>,
}

impl Model for Account {
    ghost use Rattle.std.specs.Prelude.{ℕ, List, Option};

    ghost Value = { Option (List ℕ) };

    ghost view = { λ a. a.name };

    ghost inverse = { λ name. record { name = name } };
}

impl Account {
    /// The empty account.
    pub const EMPTY: Account = Account { name: None };

    /// The account with this text, or `None` where the text is neither empty nor a name.
    pub fn new(text: &str) -> Option<Account>
        ensures { result ≡ account_of text.now }
    {
        if text.is_empty() {
            return Some(Account { name: None });
        }
        let name = Word::new(text)?;
        Some(Account { name: Some(name) })
    }

    /// The text of the account, which is read as the account again.
    pub fn as_str(&self) -> &str
        ensures text { result.now ≡ text_of self.now }
        ensures again { account_of result.now ≡ Some self.now }
    {
        match &self.name {
            Some(name) => name.as_str(),
            None => "",
        }
    }
}
