// The work memory after a call: +0.0, integers 0.
ghost use Rattle.std.specs.Prelude.{◌≡◌};
ghost use Rattle.work_memory.specs.Work.{step_memory, table_memory, cleared_steps, cleared_table};

// What the count alone uses.
pub fn clear_steps(
    tolerances: &mut [f64],
    diagonal: &mut [f64],
    direction: &mut [f64],
    product: &mut [f64],
    pattern: &mut [u32],
    order: &mut [u32],
    values: &mut [f64],
)
    ensures { step_memory tolerances.new diagonal.new direction.new product.new pattern.new order.new values.new
        ≡ cleared_steps (step_memory tolerances.old diagonal.old direction.old product.old pattern.old order.old values.old) }
{
    loops::clear(tolerances);
    loops::clear(diagonal);
    loops::clear(direction);
    loops::clear(product);
    loops::clear_words(pattern);
    loops::clear_words(order);
    loops::clear(values);
}

// What the delivery reads as well.
pub fn clear_table(
    jacobians: &mut [f64],
    links: &mut [u32],
    residual: &mut [f64],
    pending: &mut [f64],
    body_impulses: &mut [f64],
)
    ensures { table_memory jacobians.new links.new residual.new pending.new body_impulses.new
        ≡ cleared_table (table_memory jacobians.old links.old residual.old pending.old body_impulses.old) }
{
    loops::clear(jacobians);
    loops::clear_words(links);
    loops::clear(residual);
    loops::clear(pending);
    loops::clear(body_impulses);
}
