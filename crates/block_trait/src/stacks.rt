//! Stacks of what stands.
ghost use Rattle.std.specs.Prelude.{◌≡◌};
ghost use Rattle.block_layout.specs.LaidRows.{before_last};

/// Takes the last one off, where there is one.
pub fn drop_last<T: Drop>(items: &mut Vec<T>)
    ensures { items.new.items ≡ before_last items.old.items }
{
    let _last = items.pop();
}
