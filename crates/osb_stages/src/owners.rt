ghost use Rattle.std.specs.Prelude.{◌≡◌, Some, None, IsTrue, if◌then◌else◌};
ghost use Rattle.osb_tree.specs.Nodes.{IsOwner};
ghost use Rattle.osb_stages.specs.Names.{is_account_name};

use crate::readers::is_account_name;
use osb_tree::Text;
use std::marker::Model;

/// Whose a node is, 0 to 4,294,967,294, which contracts see as the number.
#[derive(Clone, Copy, Debug)]
pub struct Owner {
    number: u32,
}

impl Model for Owner {
    ghost use Rattle.std.specs.Prelude.{ℕ};
    ghost use Rattle.osb_tree.specs.Nodes.{IsOwner};

    ghost Value = { ℕ };

    ghost view = { λ o. o.number };

    ghost invariant = { λ o. IsOwner o.number };

    ghost inverse = { λ number. record { number = number } };
}

impl Owner {
    pub fn new(number: u32) -> Self
        requires { IsOwner number }
        ensures number { result ≡ number }
    {
        Owner { number }
    }

    pub fn number(self) -> u32
        ensures number { result ≡ self }
        ensures owner { IsOwner self }
    {
        self.number
    }
}

/// A user or a group, as options say which.
#[derive(Debug, Drop)]
pub enum Account {
    Name(Text),
    Number(Owner),
}

/// What a user or a group may be called, 1 to 32 bytes, which contracts see.
#[derive(Debug, Drop)]
pub struct AccountName {
    text: Text,
}

impl Model for AccountName {
    ghost use Rattle.std.specs.Prelude.{ℕ, List, IsTrue};
    ghost use Rattle.osb_stages.specs.Names.{is_account_name};

    ghost Value = { List ℕ };

    ghost view = { λ n. n.text };

    ghost invariant = { λ n. IsTrue (is_account_name n.text) };
}

impl AccountName {
    /// The text, where an account may be called so: a letter, a digit or `_`, and then up to 31 of these, `.` and `-`.
    pub fn new(text: Text) -> Option<Self>
        ensures name { result ≡ (if is_account_name text then Some text else None) }
    {
        if is_account_name(text.as_str().as_bytes()) {
            Some(AccountName { text })
        } else {
            None
        }
    }

    pub fn as_str(&self) -> &str
        ensures name { result.now ≡ self.now }
        ensures account_name { IsTrue (is_account_name self.now) }
    {
        self.text.as_str()
    }
}
