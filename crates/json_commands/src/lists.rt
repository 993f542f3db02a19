//! JSON lists.
ghost use Rattle.std.specs.Prelude.{◌≡◌, IfOk};
ghost use Rattle.serde_json.{specs.Data.{Data}, specs.View.{view}};
ghost use Rattle.json_commands.specs.Values.{IsListTold, empty_data, one_data};

use serde_json::Value;
use std::alloc::{AllocError, Global};

/// Makes the JSON values of items, all of one kind.
pub trait Listed {
    type Item;

    // What has to hold of what the values are made with.
    ghost ready: { Self → Type 0 };

    // The JSON value tells the item.
    ghost told: { Self → Self.Item → Data → Type 0 };

    fn value_of(&self, alloc: Global, item: &Self::Item) -> Result<Value, AllocError>
        requires { ready self.now }
        ensures { IfOk result (λ value. told self.now item.now (view value)) };
}

/// The JSON list of items, in their order.
pub fn list_of<W: Listed>(alloc: Global, writer: &W, items: &[W::Item]) -> Result<Value, AllocError>
    requires { W.ready writer.now }
    ensures { IfOk result (λ value. IsListTold (W.told writer.now) items.now (view value)) }
{
    let mut list = Vec::new(alloc);
    for item in items {
        let value = writer.value_of(alloc, item)?;
        list.push(value)?;
    }
    Ok(Value::Array(list))
}

/// The JSON list without items.
pub fn empty_list(alloc: Global) -> Value
    ensures { view result ≡ empty_data }
{
    Value::Array(Vec::new(alloc))
}

/// The JSON list of one value.
pub fn list_of_one(alloc: Global, value: Value) -> Result<Value, AllocError>
    ensures { IfOk result (λ list. view list ≡ one_data (view value)) }
{
    let mut list = Vec::new(alloc);
    list.push(value)?;
    Ok(Value::Array(list))
}
