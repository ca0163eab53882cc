//! The style sheet of a drawing.

/// The style sheet, and a ground that is white.
pub(crate) const GROUND: &str = concat!(
    "<style>\n",
    "text{font:12px sans-serif;fill:#24292f}\n.name{font-weight:bold}\n",
    ".number,.count{font-size:10px;fill:#6e7781}\n.count{text-anchor:end}\n",
    "path{fill:none;stroke-width:1.5}\n.tick{stroke:#e1e4e8;stroke-width:1}\n.level{stroke:#24292f}\n",
    ".scale,.rec,.tec{vector-effect:non-scaling-stroke}\n",
    ".scale{stroke:#c9d1d9;stroke-width:1;stroke-dasharray:4 3}\n",
    ".rec{stroke:#0969da}\n.tec{stroke:#bc4c00}\n.recs{fill:#0969da}\n.tecs{fill:#bc4c00}\n",
    ".struck{stroke:#d1242f;stroke-width:2.5}\n.stored{fill:#1a7f37}\n.lost{fill:#fff;stroke:#d1242f}\n",
    ".sof{fill:#8c959f}\n.id{fill:#9ecbff}\n.rtr{fill:#6cb6ff}\n.control{fill:#c8b6ff}\n.data{fill:#a6e3a1}\n",
    ".crc{fill:#ffcf8f}\n.ack{fill:#7fdbca}\n.eof{fill:#d0d7de}\n.stuff{fill:#fff176}\n",
    ".active{fill:#ff8a80}\n.passive{fill:#ffb3c7}\n.overload{fill:#d6a2e8}\n.delimiter{fill:#e6d5c3}\n",
    ".gap{fill:#dfe4ea}\n.suspend{fill:#dbe4c9}\n.idle{fill:#f0f0f0}\n.waiting{fill:#e8f0fb}\n",
    ".reset{fill:#afb8c1}\nrect{shape-rendering:crispEdges}\n",
    "</style>\n",
    "<rect width='100%' height='100%' fill='#fff'/>\n",
);
