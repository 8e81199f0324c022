ghost use Rattle.std.specs.Prelude.{◌≡◌, ◌≤◌, ◌^◌, IfOk, OnOk, [], None, length, replicate, slice_set};
ghost use Rattle.std.specs.Option.{option_copied};
ghost use Rattle.xc_script.specs.Values.{value_at};
ghost use Rattle.xc_script.specs.Ask.{with_handles};

use crate::value::Value;
use std::alloc::Global;
use std::marker::Model;
use xc_data::NoMemory;
use xc_text::NameIndex;

/// What the variables hold, by their places.
#[derive(Drop)]
pub struct Values {
    held: Vec<Option<Value>>,
}

impl Model for Values {
    ghost use Rattle.std.specs.Coded.{coded_list, coded_option};
    ghost use Rattle.xc_script.specs.Values.{Values as PlainValues};
    ghost use Rattle.xc_script.specs.Position.{coded_value};

    ghost Value = { PlainValues };

    ghost coded = { coded_list (coded_option coded_value) };

    ghost view = { λ a. a.held.items };
}

impl Values {
    /// No variable at all. It takes no memory.
    pub fn new(alloc: Global) -> Values
        ensures { result ≡ [] }
    {
        Values {
            held: Vec::new(alloc),
        }
    }

    /// `n` variables that hold nothing.
    pub fn unset(alloc: Global, n: usize) -> Result<Values, NoMemory>
        ensures { IfOk result (λ values. values ≡ replicate n None) }
    {
        Ok(Values {
            held: vec![in alloc; None; n]?,
        })
    }

    /// What the variable at a place holds, if it holds anything.
    pub fn get(&self, at: NameIndex) -> Option<&Value>
        ensures { option_copied result ≡ value_at self.now at }
    {
        match self.held.get(at as usize) {
            Some(Some(value)) => Some(value),
            Some(None) | None => None,
        }
    }

    /// A variable takes a value, or loses its own. It takes no memory.
    pub fn set(&mut self, at: NameIndex, value: Option<Value>)
        ensures { self.new ≡ slice_set self.old at value }
    {
        let at = at as usize;
        if at < self.held.len() {
            self.held[at] = value;
        }
    }

    /// These variables hold the handles from 0 on. It takes no memory.
    pub fn hold(&mut self, places: &[NameIndex])
        requires { length places.now ≤ 2 ^ 16 }
        ensures { self.new ≡ with_handles places.now 0 self.old }
    {
        for (h, at) in places.iter().enumerate() {
            self.set(*at, Some(Value::Handle(h as u16)));
        }
    }

    /// Another with the same values, whose bytes are shared.
    pub fn copied(&self) -> Result<Values, NoMemory>
        ensures { IfOk result (λ copy. copy ≡ self.now) }
    {
        Ok(Values {
            held: self.held.clone()?,
        })
    }

    /// These hold from now on what others do. Their bytes are shared. It takes memory only where there was never room for as many.
    pub fn share(&mut self, others: &Values) -> Result<(), NoMemory>
        ensures { OnOk result (self.new ≡ others.now) }
    {
        self.held.clear();
        self.held.extend_from_slice(others.held.as_slice())?;
        Ok(())
    }

    /// No variable is left. It takes no memory.
    pub fn clear(&mut self)
        ensures { self.new ≡ [] }
    {
        self.held.clear();
    }
}
