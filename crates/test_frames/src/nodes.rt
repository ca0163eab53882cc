//! How nodes are started.

use can_frame::Filter;
use can_node_rules::Config;

/// No special mode, and every frame passes: no code bit is compared.
pub const PLAIN: Config = Config {
    filter: Filter {
        single: true,
        acr: [0; 4],
        amr: [255; 4],
    },
    self_test: false,
    listen: false,
    tec: None,
    rec: None,
};
