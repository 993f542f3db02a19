//! The JSON schemas. `tools/made` writes this file from docs/schema.

/// The schema of a kind of text, if it is one that the program reads.
pub fn schema_of(kind: &str) -> Option<&'static str> {
    match kind {
        "plan" => Some(PLAN),
        "certificate" => Some(CERTIFICATE),
        "events" => Some(EVENTS),
        "board" => Some(BOARD),
        "answer" => Some(ANSWER),
        _ => None,
    }
}

const PLAN: &str = r##"{
  "$schema": "https://json-schema.org/draft/2020-12/schema",
  "title": "An MCTP network plan of mctpplan",
  "description": "What a plan's text is, as far as a schema can say it (README.md). It says nothing of C01 to C16.",
  "type": "object",
  "properties": {
    "format": {
      "enum": [
        1,
        2
      ]
    },
    "unit": {
      "description": "The transmission unit (DSP0236): the most payload bytes of a packet. Format 2 alone says it; in format 1 it is the baseline of 64.",
      "type": "integer",
      "minimum": 64,
      "maximum": 1024
    },
    "buses": {
      "type": "array",
      "items": {
        "$ref": "#/$defs/bus"
      },
      "maxItems": 64
    },
    "nodes": {
      "type": "array",
      "items": {
        "$ref": "#/$defs/node"
      },
      "maxItems": 64
    }
  },
  "required": [
    "format",
    "buses",
    "nodes"
  ],
  "additionalProperties": false,
  "if": {
    "properties": {
      "format": {
        "const": 2
      }
    }
  },
  "then": {
    "required": [
      "unit"
    ]
  },
  "else": {
    "properties": {
      "unit": false
    }
  },
  "$defs": {
    "name": {
      "description": "1 to 32 ASCII letters, digits, hyphens, underscores or dots.",
      "type": "string",
      "pattern": "^[A-Za-z0-9._-]{1,32}$"
    },
    "bus": {
      "description": "An MCTP bus segment.",
      "type": "object",
      "properties": {
        "name": {
          "$ref": "#/$defs/name"
        },
        "binding": {
          "description": "The physical transport binding identifier (DSP0239).",
          "type": "integer",
          "minimum": 0,
          "maximum": 255
        },
        "media": {
          "description": "The physical media identifier (DSP0239).",
          "type": "integer",
          "minimum": 0,
          "maximum": 255
        }
      },
      "required": [
        "name",
        "binding",
        "media"
      ],
      "additionalProperties": false
    },
    "node": {
      "description": "A device that holds an endpoint ID.",
      "type": "object",
      "properties": {
        "name": {
          "$ref": "#/$defs/name"
        },
        "kind": {
          "description": "Whether it passes packets on.",
          "enum": [
            "bridge",
            "endpoint"
          ]
        },
        "eid": {
          "description": "The endpoint ID; check asks for one of 8 to 254.",
          "type": "integer",
          "minimum": 0,
          "maximum": 255
        },
        "owner": {
          "description": "The node that gives this one its endpoint ID; null for a bus owner.",
          "anyOf": [
            {
              "type": "null"
            },
            {
              "$ref": "#/$defs/name"
            }
          ]
        },
        "pool": {
          "description": "The endpoint IDs that a bridge hands out.",
          "anyOf": [
            {
              "type": "null"
            },
            {
              "$ref": "#/$defs/pool"
            }
          ]
        },
        "ports": {
          "type": "array",
          "items": {
            "$ref": "#/$defs/port"
          },
          "maxItems": 32
        },
        "rows": {
          "description": "The routing table.",
          "type": "array",
          "items": {
            "$ref": "#/$defs/row"
          },
          "maxItems": 256
        },
        "terminus": {
          "description": "The PLDM terminus, if the node has one.",
          "anyOf": [
            {
              "type": "null"
            },
            {
              "$ref": "#/$defs/terminus"
            }
          ]
        }
      },
      "required": [
        "name",
        "kind",
        "eid",
        "owner",
        "pool",
        "ports",
        "rows",
        "terminus"
      ],
      "additionalProperties": false
    },
    "pool": {
      "description": "A range of endpoint IDs.",
      "type": "object",
      "properties": {
        "first": {
          "description": "The first endpoint ID.",
          "type": "integer",
          "minimum": 0,
          "maximum": 255
        },
        "size": {
          "description": "How many from there.",
          "type": "integer",
          "minimum": 0,
          "maximum": 255
        }
      },
      "required": [
        "first",
        "size"
      ],
      "additionalProperties": false
    },
    "port": {
      "description": "A node's place on a bus.",
      "type": "object",
      "properties": {
        "bus": {
          "$ref": "#/$defs/name"
        },
        "address": {
          "description": "The physical address on the bus, at most 8 bytes in hex.",
          "type": "string",
          "pattern": "^([0-9A-Fa-f]{2}){0,8}$"
        }
      },
      "required": [
        "bus",
        "address"
      ],
      "additionalProperties": false
    },
    "row": {
      "description": "Where packets for a range of endpoint IDs go next.",
      "type": "object",
      "properties": {
        "first": {
          "description": "The first endpoint ID.",
          "type": "integer",
          "minimum": 0,
          "maximum": 255
        },
        "size": {
          "description": "How many from there.",
          "type": "integer",
          "minimum": 0,
          "maximum": 255
        },
        "port": {
          "description": "A place in the node's list of ports, from 0.",
          "type": "integer",
          "minimum": 0,
          "maximum": 31
        },
        "next": {
          "description": "The next node.",
          "$ref": "#/$defs/name"
        }
      },
      "required": [
        "first",
        "size",
        "port",
        "next"
      ],
      "additionalProperties": false
    },
    "terminus": {
      "description": "A PLDM terminus.",
      "type": "object",
      "properties": {
        "tid": {
          "description": "The terminus ID (DSP0240), 0 where it has none yet.",
          "type": "integer",
          "minimum": 0,
          "maximum": 254
        },
        "records": {
          "type": "array",
          "items": {
            "$ref": "#/$defs/record"
          },
          "maxItems": 4096
        }
      },
      "required": [
        "tid",
        "records"
      ],
      "additionalProperties": false
    },
    "record": {
      "description": "A platform descriptor record.",
      "type": "object",
      "properties": {
        "handle": {
          "description": "The record handle.",
          "type": "integer",
          "minimum": 0,
          "maximum": 4294967295
        },
        "next": {
          "description": "The handle of the record that follows, 0 where none does.",
          "type": "integer",
          "minimum": 0,
          "maximum": 4294967295
        },
        "bytes": {
          "description": "The record with its common header (DSP0248), in hex.",
          "type": "string",
          "pattern": "^([0-9A-Fa-f]{2})*$"
        }
      },
      "required": [
        "handle",
        "next",
        "bytes"
      ],
      "additionalProperties": false
    }
  }
}
"##;

const CERTIFICATE: &str = r##"{
  "$schema": "https://json-schema.org/draft/2020-12/schema",
  "title": "A certificate of a plan of mctpplan",
  "description": "What a certificate's text is, as far as a schema can say it (README.md).",
  "type": "object",
  "properties": {
    "format": {
      "const": 1
    },
    "levels": {
      "type": "array",
      "items": {
        "$ref": "#/$defs/level"
      }
    },
    "places": {
      "type": "array",
      "items": {
        "$ref": "#/$defs/places"
      }
    },
    "ranks": {
      "type": "array",
      "items": {
        "$ref": "#/$defs/ranks"
      }
    }
  },
  "required": [
    "format",
    "levels",
    "places",
    "ranks"
  ],
  "additionalProperties": false,
  "$defs": {
    "name": {
      "description": "1 to 32 ASCII letters, digits, hyphens, underscores or dots.",
      "type": "string",
      "pattern": "^[A-Za-z0-9._-]{1,32}$"
    },
    "level": {
      "description": "How many owners stand above a node.",
      "type": "object",
      "properties": {
        "level": {
          "type": "integer",
          "minimum": 1,
          "maximum": 63
        },
        "node": {
          "$ref": "#/$defs/name"
        }
      },
      "required": [
        "level",
        "node"
      ],
      "additionalProperties": false
    },
    "places": {
      "description": "The places of a node's records along their next handles.",
      "type": "object",
      "properties": {
        "node": {
          "$ref": "#/$defs/name"
        },
        "places": {
          "description": "A place for each record, in the order of the node's list.",
          "type": "array",
          "items": {
            "type": "integer",
            "minimum": 0,
            "maximum": 4095
          }
        }
      },
      "required": [
        "node",
        "places"
      ],
      "additionalProperties": false
    },
    "ranks": {
      "description": "How many moves are left at a node.",
      "type": "object",
      "properties": {
        "node": {
          "$ref": "#/$defs/name"
        },
        "ranges": {
          "type": "array",
          "items": {
            "$ref": "#/$defs/range"
          }
        }
      },
      "required": [
        "node",
        "ranges"
      ],
      "additionalProperties": false
    },
    "range": {
      "description": "One rank for a range of endpoint IDs.",
      "type": "object",
      "properties": {
        "first": {
          "description": "The first endpoint ID.",
          "type": "integer",
          "minimum": 0,
          "maximum": 255
        },
        "rank": {
          "type": "integer",
          "minimum": 1,
          "maximum": 255
        },
        "size": {
          "description": "How many from there.",
          "type": "integer",
          "minimum": 1,
          "maximum": 255
        }
      },
      "required": [
        "first",
        "rank",
        "size"
      ],
      "additionalProperties": false
    }
  }
}
"##;

const EVENTS: &str = r##"{
  "$schema": "https://json-schema.org/draft/2020-12/schema",
  "title": "Events for mctpplan",
  "description": "What a text of events is, as far as a schema can say it (README.md).",
  "type": "object",
  "properties": {
    "format": {
      "enum": [
        1,
        2,
        3
      ]
    },
    "events": {
      "type": "array",
      "maxItems": 100000
    }
  },
  "required": [
    "format",
    "events"
  ],
  "additionalProperties": false,
  "allOf": [
    {
      "if": {
        "properties": {
          "format": {
            "const": 1
          }
        }
      },
      "then": {
        "properties": {
          "events": {
            "items": {
              "anyOf": [
                {
                  "$ref": "#/$defs/put"
                },
                {
                  "$ref": "#/$defs/move"
                },
                {
                  "$ref": "#/$defs/lose"
                },
                {
                  "$ref": "#/$defs/expire"
                },
                {
                  "$ref": "#/$defs/answer"
                }
              ]
            }
          }
        }
      }
    },
    {
      "if": {
        "properties": {
          "format": {
            "const": 2
          }
        }
      },
      "then": {
        "properties": {
          "events": {
            "items": {
              "anyOf": [
                {
                  "$ref": "#/$defs/put"
                },
                {
                  "$ref": "#/$defs/move"
                },
                {
                  "$ref": "#/$defs/lose"
                },
                {
                  "$ref": "#/$defs/expire"
                },
                {
                  "$ref": "#/$defs/answer"
                },
                {
                  "$ref": "#/$defs/switch"
                }
              ]
            }
          }
        }
      }
    },
    {
      "if": {
        "properties": {
          "format": {
            "const": 3
          }
        }
      },
      "then": {
        "properties": {
          "events": {
            "items": {
              "anyOf": [
                {
                  "$ref": "#/$defs/put"
                },
                {
                  "$ref": "#/$defs/move"
                },
                {
                  "$ref": "#/$defs/lose"
                },
                {
                  "$ref": "#/$defs/expire"
                },
                {
                  "$ref": "#/$defs/answer"
                },
                {
                  "$ref": "#/$defs/switch"
                },
                {
                  "$ref": "#/$defs/walk"
                },
                {
                  "$ref": "#/$defs/ask"
                },
                {
                  "$ref": "#/$defs/collected"
                }
              ]
            }
          }
        }
      }
    }
  ],
  "$defs": {
    "name": {
      "description": "1 to 32 ASCII letters, digits, hyphens, underscores or dots.",
      "type": "string",
      "pattern": "^[A-Za-z0-9._-]{1,32}$"
    },
    "put": {
      "description": "A packet is put in at a node.",
      "type": "object",
      "properties": {
        "do": {
          "const": "put"
        },
        "node": {
          "$ref": "#/$defs/name"
        },
        "bytes": {
          "description": "The packet in hex.",
          "type": "string",
          "pattern": "^([0-9A-Fa-f]{2})*$"
        }
      },
      "required": [
        "do",
        "node",
        "bytes"
      ],
      "additionalProperties": false
    },
    "move": {
      "description": "A flight moves one hop or enters its node.",
      "type": "object",
      "properties": {
        "do": {
          "const": "move"
        },
        "flight": {
          "description": "A flight's number: what an outcome called it.",
          "type": "integer",
          "minimum": 0,
          "maximum": 4294967295
        },
        "keep": {
          "description": "Whether a copy of it moves and it stays.",
          "type": "boolean"
        }
      },
      "required": [
        "do",
        "flight",
        "keep"
      ],
      "additionalProperties": false
    },
    "lose": {
      "description": "A flight is lost.",
      "type": "object",
      "properties": {
        "do": {
          "const": "lose"
        },
        "flight": {
          "description": "A flight's number: what an outcome called it.",
          "type": "integer",
          "minimum": 0,
          "maximum": 4294967295
        }
      },
      "required": [
        "do",
        "flight"
      ],
      "additionalProperties": false
    },
    "expire": {
      "description": "The time of a message key is up at a node.",
      "type": "object",
      "properties": {
        "do": {
          "const": "expire"
        },
        "node": {
          "$ref": "#/$defs/name"
        },
        "source": {
          "description": "The source endpoint ID.",
          "type": "integer",
          "minimum": 0,
          "maximum": 255
        },
        "tag": {
          "type": "integer",
          "minimum": 0,
          "maximum": 7
        },
        "owner": {
          "type": "integer",
          "minimum": 0,
          "maximum": 1
        }
      },
      "required": [
        "do",
        "node",
        "source",
        "tag",
        "owner"
      ],
      "additionalProperties": false
    },
    "answer": {
      "description": "The terminus of a node answers the oldest message that waits there.",
      "type": "object",
      "properties": {
        "do": {
          "const": "answer"
        },
        "node": {
          "$ref": "#/$defs/name"
        }
      },
      "required": [
        "do",
        "node"
      ],
      "additionalProperties": false
    },
    "switch": {
      "description": "A node goes over to its rows in the new plan.",
      "type": "object",
      "properties": {
        "do": {
          "const": "switch"
        },
        "node": {
          "$ref": "#/$defs/name"
        }
      },
      "required": [
        "do",
        "node"
      ],
      "additionalProperties": false
    },
    "walk": {
      "description": "A walker is set up.",
      "type": "object",
      "properties": {
        "do": {
          "const": "walk"
        },
        "node": {
          "$ref": "#/$defs/name"
        },
        "eid": {
          "description": "The endpoint ID whose terminus it asks.",
          "type": "integer",
          "minimum": 8,
          "maximum": 254
        },
        "tag": {
          "type": "integer",
          "minimum": 0,
          "maximum": 7
        },
        "count": {
          "description": "The most bytes of a record that a request asks for.",
          "type": "integer",
          "minimum": 8,
          "maximum": 4079
        }
      },
      "required": [
        "do",
        "node",
        "eid",
        "tag",
        "count"
      ],
      "additionalProperties": false
    },
    "ask": {
      "description": "A walker puts its request in.",
      "type": "object",
      "properties": {
        "do": {
          "const": "ask"
        },
        "walker": {
          "description": "A walker's number, from 1.",
          "type": "integer",
          "minimum": 0,
          "maximum": 4294967295
        }
      },
      "required": [
        "do",
        "walker"
      ],
      "additionalProperties": false
    },
    "collected": {
      "description": "What a walker has collected is told.",
      "type": "object",
      "properties": {
        "do": {
          "const": "collected"
        },
        "walker": {
          "description": "A walker's number, from 1.",
          "type": "integer",
          "minimum": 0,
          "maximum": 4294967295
        }
      },
      "required": [
        "do",
        "walker"
      ],
      "additionalProperties": false
    }
  }
}
"##;

const BOARD: &str = r##"{
  "$schema": "https://json-schema.org/draft/2020-12/schema",
  "title": "A board, of which mctpplan makes a plan",
  "type": "object",
  "additionalProperties": false,
  "properties": {
    "unit": { "description": "The transmission unit in bytes.", "type": "integer", "minimum": 64, "maximum": 1024, "default": 64 },
    "bus": { "type": "array", "maxItems": 64, "items": { "$ref": "#/$defs/bus" } },
    "node": { "type": "array", "maxItems": 64, "items": { "$ref": "#/$defs/node" } }
  },
  "$defs": {
    "name": { "type": "string", "pattern": "^[A-Za-z0-9._-]{1,32}$" },
    "bus": {
      "type": "object",
      "additionalProperties": false,
      "required": ["name", "binding"],
      "properties": {
        "name": { "$ref": "#/$defs/name" },
        "binding": {
          "description": "The physical transport binding (DSP0239).",
          "oneOf": [
            { "enum": ["smbus", "i2c", "pcie", "usb", "kcs", "serial", "i3c"] },
            { "type": "integer", "minimum": 0, "maximum": 255 }
          ]
        },
        "media": { "description": "The physical medium (DSP0239).", "type": "integer", "minimum": 0, "maximum": 255, "default": 0 },
        "addresses": { "description": "7-bit: the addresses of ports have 7 bits. Left out: they are as on the wire. Of SMBus, I2C and I3C.", "enum": ["7-bit"] }
      }
    },
    "node": {
      "type": "object",
      "additionalProperties": false,
      "required": ["name"],
      "properties": {
        "name": { "$ref": "#/$defs/name" },
        "kind": { "enum": ["bridge", "endpoint"] },
        "eid": { "description": "The endpoint ID. Left out: the least that is free in the owner's pool.", "type": "integer", "minimum": 8, "maximum": 254 },
        "owner": { "$ref": "#/$defs/name" },
        "pool": {
          "description": "Endpoint IDs, as 16-31, of one as 16 or 16-16, or how many they are.",
          "oneOf": [
            { "type": "string", "pattern": "^[0-9]{1,3}(-[0-9]{1,3})?$" },
            { "type": "integer", "minimum": 1, "maximum": 247 }
          ]
        },
        "ports": {
          "description": "Each port is a bus and an address in lower-case hex, as i2c0 3a.",
          "type": "array",
          "maxItems": 32,
          "items": { "type": "string", "pattern": "^[A-Za-z0-9._-]{1,32}( ([0-9a-f]{2}){1,8})?$" }
        },
        "reaches": { "description": "Left out: every node and every pool.", "type": "array", "maxItems": 64, "items": { "$ref": "#/$defs/name" } },
        "rows": {
          "description": "Rows of your own, as 16-31 via switch port 0.",
          "type": "array",
          "maxItems": 256,
          "items": { "type": "string", "pattern": "^[0-9]{1,3}(-[0-9]{1,3})? via [A-Za-z0-9._-]{1,32} port ([0-9]|[12][0-9]|3[01])$" }
        },
        "tid": { "description": "The terminus ID.", "type": "integer", "minimum": 0, "maximum": 254 },
        "record": { "type": "array", "maxItems": 4096, "items": { "$ref": "#/$defs/record" } }
      }
    },
    "field": { "type": ["integer", "string"] },
    "record": {
      "type": "object",
      "properties": {
        "handle": { "type": "integer", "minimum": 0, "maximum": 4294967295 },
        "next": { "type": "integer", "minimum": 0, "maximum": 4294967295 },
        "hex": { "type": "string", "pattern": "^([0-9a-f]{2})*$" },
        "file": { "description": "The path of a file with the record's bytes, from the board's folder.", "type": "string", "minLength": 1 },
        "type": { "enum": ["terminus-locator", "numeric-sensor", "state-sensor", "entity-association"] }
      },
      "oneOf": [{ "required": ["hex"] }, { "required": ["file"] }, { "required": ["type"] }],
      "additionalProperties": { "anyOf": [{ "$ref": "#/$defs/field" }, { "type": "array", "maxItems": 256, "items": { "$ref": "#/$defs/field" } }] }
    }
  }
}
"##;

const ANSWER: &str = r##"{
  "$schema": "https://json-schema.org/draft/2020-12/schema",
  "title": "An answer of mctpplan in JSON",
  "description": "What explain, faults, lint, reach and trace print with --json: one value, in one line.",
  "type": "object",
  "properties": {
    "format": {
      "const": 1
    },
    "command": {
      "enum": [
        "explain",
        "faults",
        "lint",
        "reach",
        "trace"
      ]
    },
    "status": {
      "description": "The exit status: 0, 1 where there is a fault, 2 where a file can't be read or a name is unknown.",
      "enum": [
        0,
        1,
        2
      ]
    },
    "results": {
      "description": "All that is wrong; empty where nothing is.",
      "type": "array",
      "items": {
        "$ref": "#/$defs/note"
      }
    },
    "edits": true,
    "more": true,
    "sentences": true,
    "plan": true,
    "pairs": {
      "description": "Of reach: each two different nodes.",
      "type": "array",
      "items": {
        "$ref": "#/$defs/pair"
      }
    },
    "way": {
      "$ref": "#/$defs/way"
    }
  },
  "required": [
    "format",
    "command",
    "status",
    "results"
  ],
  "additionalProperties": false,
  "allOf": [
    {
      "if": {
        "properties": {
          "status": {
            "const": 0
          }
        }
      },
      "then": {
        "properties": {
          "results": {
            "maxItems": 0
          }
        }
      },
      "else": {
        "properties": {
          "results": {
            "minItems": 1
          }
        }
      }
    },
    {
      "if": {
        "properties": {
          "command": {
            "const": "explain"
          },
          "status": {
            "enum": [
              0,
              1
            ]
          }
        }
      },
      "then": {
        "properties": {
          "command": {
            "const": "explain"
          },
          "edits": {
            "type": "array",
            "items": {
              "$ref": "#/$defs/edit"
            },
            "maxItems": 3
          },
          "more": {
            "description": "How many more faults there are; faults lists them.",
            "type": "integer",
            "minimum": 0
          },
          "sentences": {
            "type": "array",
            "items": {
              "type": "string"
            }
          },
          "plan": {
            "description": "Where the certificate alone is at fault: what explains the plan by itself.",
            "oneOf": [
              {
                "type": "null"
              },
              {
                "$ref": "#"
              }
            ]
          }
        },
        "required": [
          "edits",
          "more",
          "sentences",
          "plan"
        ]
      },
      "else": {
        "properties": {
          "edits": false,
          "more": false,
          "sentences": false,
          "plan": false
        }
      }
    },
    {
      "if": {
        "properties": {
          "command": {
            "const": "reach"
          },
          "status": {
            "const": 0
          }
        }
      },
      "then": {
        "required": [
          "pairs"
        ]
      },
      "else": {
        "properties": {
          "pairs": false
        }
      }
    },
    {
      "if": {
        "properties": {
          "command": {
            "const": "trace"
          },
          "status": {
            "const": 0
          }
        }
      },
      "then": {
        "required": [
          "way"
        ]
      },
      "else": {
        "properties": {
          "way": false
        }
      }
    }
  ],
  "$defs": {
    "eid": {
      "description": "An endpoint ID.",
      "type": "integer",
      "minimum": 0,
      "maximum": 255
    },
    "node": {
      "description": "A node: its index in the plan's list, from 0, and its name.",
      "type": "object",
      "properties": {
        "index": {
          "type": "integer",
          "minimum": 0
        },
        "name": {
          "type": "string"
        }
      },
      "required": [
        "index",
        "name"
      ],
      "additionalProperties": false
    },
    "place": {
      "description": "Where a value begins in the text of a file. What is not known is null.",
      "type": "object",
      "properties": {
        "file": {
          "description": "The file's name, as the command was given it.",
          "type": "string"
        },
        "line": {
          "type": [
            "integer",
            "null"
          ],
          "minimum": 1
        },
        "column": {
          "type": [
            "integer",
            "null"
          ],
          "minimum": 1,
          "description": "The character of the line."
        },
        "pointer": {
          "type": [
            "string",
            "null"
          ],
          "description": "The JSON pointer (RFC 6901) to the value; the whole text has an empty one."
        }
      },
      "required": [
        "file",
        "line",
        "column",
        "pointer"
      ],
      "additionalProperties": false
    },
    "note": {
      "description": "What is wrong: a fault or a run of faults, what else rules certificates out, a finding, or a text that can't be read.",
      "type": "object",
      "properties": {
        "kind": {
          "enum": [
            "fault",
            "owner loop",
            "loop",
            "chain",
            "finding",
            "unreadable"
          ]
        },
        "code": {
          "description": "C01 to C16, H01 to H23, J01 to J09, or file where a file can't be opened or read.",
          "type": "string",
          "pattern": "^([CHJ][0-9]{2}|file)$"
        },
        "nodes": {
          "type": "array",
          "items": {
            "$ref": "#/$defs/node"
          }
        },
        "entry": {
          "type": [
            "integer",
            "null"
          ],
          "minimum": 0,
          "description": "The index of the row in the node's list, or of the record in its terminus's."
        },
        "eids": {
          "description": "The endpoint IDs of a run of faults, from the first to the last.",
          "oneOf": [
            {
              "type": "null"
            },
            {
              "type": "object",
              "properties": {
                "first": {
                  "$ref": "#/$defs/eid"
                },
                "last": {
                  "$ref": "#/$defs/eid"
                }
              },
              "required": [
                "first",
                "last"
              ],
              "additionalProperties": false
            }
          ]
        },
        "place": {
          "$ref": "#/$defs/place"
        },
        "related": {
          "description": "Where the others stand that are involved.",
          "type": "array",
          "items": {
            "$ref": "#/$defs/place"
          }
        },
        "sentences": {
          "description": "The lines that the command prints of it without --json.",
          "type": "array",
          "items": {
            "type": "string"
          }
        }
      },
      "required": [
        "kind",
        "code",
        "nodes",
        "entry",
        "eids",
        "place",
        "related",
        "sentences"
      ],
      "additionalProperties": false
    },
    "edit": {
      "description": "An edit that was tried, as an operation of a JSON patch (RFC 6902).",
      "type": "object",
      "properties": {
        "op": {
          "enum": [
            "add",
            "remove",
            "replace"
          ]
        },
        "path": {
          "description": "The JSON pointer into the plan's text.",
          "type": "string"
        },
        "value": {
          "description": "What is to stand there; null also where a row is removed.",
          "type": [
            "integer",
            "null",
            "object",
            "string"
          ]
        },
        "sentences": {
          "type": "array",
          "items": {
            "type": "string"
          }
        },
        "left": {
          "type": [
            "string",
            "null"
          ],
          "description": "What first rules certificates out once just this edit is made; null where one fits then."
        }
      },
      "required": [
        "op",
        "path",
        "value",
        "sentences",
        "left"
      ],
      "additionalProperties": false
    },
    "pair": {
      "type": "object",
      "properties": {
        "from": {
          "$ref": "#/$defs/node"
        },
        "to": {
          "$ref": "#/$defs/node"
        },
        "hops": {
          "type": [
            "integer",
            "null"
          ],
          "minimum": 0,
          "description": "How many hops a packet makes; null where there is no way."
        }
      },
      "required": [
        "from",
        "to",
        "hops"
      ],
      "additionalProperties": false
    },
    "step": {
      "type": "object",
      "properties": {
        "node": {
          "$ref": "#/$defs/node"
        },
        "next": {
          "$ref": "#/$defs/node"
        },
        "port": {
          "type": "integer",
          "minimum": 0,
          "maximum": 255
        },
        "place": {
          "$ref": "#/$defs/place"
        }
      },
      "required": [
        "node",
        "next",
        "port",
        "place"
      ],
      "additionalProperties": false
    },
    "way": {
      "description": "The way of a packet. It ends at the last node, which takes the packet where stops is null.",
      "type": "object",
      "properties": {
        "eid": {
          "$ref": "#/$defs/eid"
        },
        "steps": {
          "type": "array",
          "items": {
            "$ref": "#/$defs/step"
          }
        },
        "last": {
          "$ref": "#/$defs/node"
        },
        "stops": {
          "type": [
            "string",
            "null"
          ],
          "description": "The code for which the last node drops the packet.",
          "pattern": "^B1[0-2]$"
        }
      },
      "required": [
        "eid",
        "steps",
        "last",
        "stops"
      ],
      "additionalProperties": false
    }
  }
}
"##;
