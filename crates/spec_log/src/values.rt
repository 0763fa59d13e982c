ghost use Rattle.std.specs.Prelude.{◌≡◌, [], ◌∷◌, ◌++◌, length, OnOk, OnErr, IfOk};

use spec_file::NoMemory;
use std::alloc::Global;
use std::marker::Model;

/// A `Vec` that contracts see as the list of its values.
#[derive(Debug, Drop)]
pub struct Values<T> {
    values: Vec<T>,
}

impl<T> Model for Values<T> {
    ghost use Rattle.std.specs.Prelude.{List};
    ghost use Rattle.std.specs.Coded.{coded_list};

    ghost Value = { List T };

    ghost coded = { coded_list T.code };

    ghost view = { λ it. it.values.items };
}

impl<T> Values<T> {
    /// No values.
    pub fn new(alloc: Global) -> Values<T>
        ensures { result ≡ [] }
    {
        Values {
            values: Vec::new(alloc),
        }
    }

    /// The values of a `Vec`, in their order.
    pub fn from_vec(values: Vec<T>) -> Values<T>
        ensures { result ≡ values.items }
    {
        Values { values }
    }

    /// The same values as a `Vec`.
    pub fn into_vec(self) -> Vec<T>
        ensures { result.items ≡ self }
    {
        let Values { values } = self;
        values
    }

    pub fn as_slice(&self) -> &[T]
        ensures { result.now ≡ self.now }
    {
        self.values.as_slice()
    }

    /// How many values there are.
    pub fn count(&self) -> usize
        ensures { result ≡ length self.now }
    {
        self.values.len()
    }
}

impl<T: Copy> Values<T> {
    /// A copy of these values.
    pub fn copied(alloc: Global, values: &[T]) -> Result<Values<T>, NoMemory>
        ensures { IfOk result (λ it. it ≡ values.now) }
    {
        let values = Vec::from_slice(alloc, values)?;
        Ok(Values { values })
    }
}

impl<T: Drop> Values<T> {
    /// One value more at the end. Where memory runs out the values are as before.
    pub fn push(&mut self, value: T) -> Result<(), NoMemory>
        ensures ok { OnOk result (self.new ≡ self.old ++ value ∷ []) }
        ensures err { OnErr result (self.new ≡ self.old) }
    {
        self.values.push(value)?;
        Ok(())
    }
}
