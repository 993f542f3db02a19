//! What stands on each page in the same words: its links, and what is promised and what isn't.

/// Links to the sections.
pub const LINKS: &str = "<nav><a href=\"#network\">Network</a><a href=\"#buses\">Buses</a>\
    <a href=\"#nodes\">Nodes</a><a href=\"#pools\">Pools</a><a href=\"#rows\">Rows</a>\
    <a href=\"#termini\">Termini</a><a href=\"#reached\">Who reaches whom</a>\
    <a href=\"#findings\">What looks wrong</a><a href=\"#promises\">What is promised</a></nav>\n";

/// The same where the plan is not accepted.
pub const LINKS_OF_REFUSED: &str =
    "<nav><a href=\"#network\">Network</a><a href=\"#buses\">Buses</a>\
    <a href=\"#nodes\">Nodes</a><a href=\"#pools\">Pools</a><a href=\"#rows\">Rows</a>\
    <a href=\"#termini\">Termini</a><a href=\"#findings\">What looks wrong</a>\
    <a href=\"#promises\">What is promised</a></nav>\n";

/// What is promised of a plan that is accepted, and what isn't.
pub const PROMISES: &str = "<section id=\"promises\">
<h2>What is promised, and what isn't</h2>
<p>In every run of the planned network, whatever is lost, repeated, delayed or out of order:</p>
<ul>
<li>a packet enters only the node that holds its destination endpoint ID, within the hops of the certificate;</li>
<li>a packet whose destination a node holds, and which its origin holds or has a row for, is never stopped on its way;</li>
<li>every message that comes joins packets that were put in under one source, tag and owner bit, in their order;</li>
<li>every finished GetPDR walk has collected each record of its terminus exactly once.</li>
</ul>
<p>This is not promised:</p>
<ul>
<li>that a packet is ever moved, that a message or an answer ever arrives, that a walk is ever done; time; fairness;</li>
<li>that real devices forward by these rows, or hold what the plan gives them;</li>
<li>that every node has a way to every other: the table above says who reaches whom;</li>
<li>that physical addresses, terminus IDs or sensor IDs differ: what looks wrong of these stands above;</li>
<li>how this page looks, and what its tables show of the plan: code that is tested, not proved, lays them out. The
verdict is that of check or certify, and the hops are those of reach, which are proved.</li>
</ul>
</section>
";

/// What is promised of a plan that is not accepted.
pub const NOT_ACCEPTED: &str = "<section id=\"promises\">
<h2>What is promised, and what isn't</h2>
<p>Nothing is promised of the packets of this plan: it is not accepted, for the reason at the top. Packets may go round,
stop on their way, or enter a node that they are not for, and a walk over records may never end.</p>
<p>The verdict is that of check or certify, which are proved. All else on this page is laid out by code that is tested,
not proved.</p>
</section>
";
