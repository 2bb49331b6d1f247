//! How a concentrator runs.
ghost use Rattle.std.specs.Prelude.{◌≡◌, ◌≤◌};
ghost use Rattle.pdc_publisher.specs.declared.publisher.TheConstants.{MAX_LEAD};
ghost use Rattle.pdc_startup.specs.declared.plan.TheConstants.{MAX_LIMIT};

use pdc_settings::Service;

/// The most steps that are kept over a base.
pub const MAX_LIMIT: usize = 1024;

/// How a concentrator runs, beside the settings of its life.
#[derive(Clone, Copy)]
pub struct Plan {
    /// The instants that are reserved ahead, 0 to 1000.
    pub lead: u16,
    /// The ticks from one layout frame to the next, at least 1.
    pub layout_every: u32,
    /// After how many steps the base is brought up, 1 to 1024.
    pub limit: usize,
    pub ghost lead_high: { lead ≤ MAX_LEAD },
    pub ghost layout_every_low: { 1 ≤ layout_every },
    pub ghost limit_low: { 1 ≤ limit },
    pub ghost limit_high: { limit ≤ MAX_LIMIT },
}

/// How a concentrator with these settings runs.
pub fn plan_of(service: &Service) -> Plan
    ensures lead { result.lead ≡ service.now.lead }
    ensures every { result.layout_every ≡ service.now.layout_every }
    ensures limit { result.limit ≡ MAX_LIMIT }
{
    Plan {
        lead: service.lead,
        layout_every: u32::from(service.layout_every),
        limit: MAX_LIMIT,
    }
}
