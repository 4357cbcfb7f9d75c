//! The conditions of focus and dose that words name.
ghost use Rattle.std.specs.Prelude.{◌≡◌};

use opc_base::Text;
use std::marker::Model;

/// A condition as words name it: the file of its kernels, the least intensity that prints under it, and the weight of
/// the errors that it shows.
#[derive(Drop)]
pub struct ConditionWords {
    pub kernels: Text,
    /// 1 to 999,999,999,999.
    pub threshold: i64,
    /// 1 to 16.
    pub weight: u32,
}

/// A list of conditions as words name them.
#[derive(Drop)]
pub struct ConditionList {
    items: Vec<ConditionWords>,
}

impl Model for ConditionList {
    ghost use Rattle.std.specs.Prelude.{List};
    ghost use Rattle.opc_cli.specs.declared.conditions.ConditionWords.{ConditionWords};

    ghost Value = { List ConditionWords };

    ghost view = { λ l. l.items.items };
}

impl ConditionList {
    /// The conditions of this list.
    pub fn from_vec(items: Vec<ConditionWords>) -> Self
        ensures list { result ≡ items.items }
    {
        ConditionList { items }
    }

    /// Lends the list.
    pub fn as_slice(&self) -> &[ConditionWords]
        ensures list { result.now ≡ self.now }
    {
        self.items.as_slice()
    }
}
