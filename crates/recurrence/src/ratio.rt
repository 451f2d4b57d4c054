// The numbers between the vectors: alpha, s and beta.
ghost use Rattle.std.specs.Prelude.{◌≡◌};
ghost use Rattle.recurrence.specs.Step.{alpha_of, product_fit, beta_of};
ghost use Rattle.refusals.specs.Told.{told};

use refusals::Refusal;

pub fn alpha(residual_product: f64, denominator: f64) -> Result<f64, Refusal>
    ensures { alpha_of residual_product denominator ≡ told result }
{
    if !binary64::is_finite(denominator) {
        return Err(Refusal::Step);
    }
    if denominator <= binary64::MIN_POSITIVE {
        return Err(Refusal::Direction);
    }
    let ratio = residual_product / denominator;
    if !binary64::is_finite(ratio) {
        return Err(Refusal::Step);
    }
    Ok(ratio)
}

// s, where it can be divided by.
pub fn fit_product(residual_product: f64) -> Result<f64, Refusal>
    ensures { product_fit residual_product ≡ told result }
{
    if !binary64::is_finite(residual_product) {
        return Err(Refusal::Step);
    }
    if residual_product <= binary64::MIN_POSITIVE {
        return Err(Refusal::Residual);
    }
    Ok(residual_product)
}

pub fn beta(next_residual_product: f64, residual_product: f64) -> Result<f64, Refusal>
    ensures { beta_of next_residual_product residual_product ≡ told result }
{
    let ratio = next_residual_product / residual_product;
    if !binary64::is_finite(ratio) {
        return Err(Refusal::Step);
    }
    Ok(ratio)
}
