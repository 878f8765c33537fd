use lifecycle::RestartPolicy;
use manifest::*;
use std::alloc::{AllocError, Global};

// The smallest manifest: all the rest is left to the defaults.
const SMALLEST: &str = "{\"apiVersion\":\"v1\",\"kind\":\"Pod\",\"metadata\":{\"name\":\"p\"},
    \"spec\":{\"containers\":[{\"name\":\"a\",\"image\":\"a.json\"}]}}";

// As `kubectl run web --image=nginx:1.25 --dry-run=client -o json` writes it, with changes by hand.
const WRITTEN: &str = "{\"kind\":\"Pod\",\"apiVersion\":\"v1\",
    \"metadata\":{\"name\":\"web.0\",\"namespace\":\"shop\",\"uid\":\"0f0e-A1\",\"creationTimestamp\":null,
        \"labels\":{\"run\":\"web\"},\"annotations\":{\"a/b\":\"c\"}},
    \"spec\":{\"volumes\":[{\"name\":\"v\",\"emptyDir\":{}}],
        \"initContainers\":[{\"name\":\"setup\",\"image\":\"setup.json\",\"command\":[\"sh\"],
            \"securityContext\":{\"privileged\":true,\"runAsUser\":0}}],
        \"containers\":[{\"name\":\"web\",\"image\":\"nginx:1.25\",\"ports\":[{\"containerPort\":80}],
            \"env\":[],\"resources\":{},\"livenessProbe\":{\"httpGet\":{\"path\":\"/\",\"port\":80}},
            \"volumeMounts\":[{\"name\":\"v\",\"mountPath\":\"/v\"}],
            \"securityContext\":{\"privileged\":null,\"allowPrivilegeEscalation\":false,
                \"seccompProfile\":{\"type\":\"Unconfined\",\"localhostProfile\":null}}},
            {\"name\":\"log\",\"image\":\"a/b\",\"securityContext\":null}],
        \"restartPolicy\":\"Never\",\"terminationGracePeriodSeconds\":0,\"dnsPolicy\":\"ClusterFirst\",
        \"securityContext\":{\"privileged\":true,\"seccompProfile\":{\"type\":\"RuntimeDefault\"}}},
    \"status\":{}}";

#[test]
fn defaults(rt: HostRuntime) {
    let pod = read(rt.alloc(), SMALLEST.as_bytes()).expect(&rt, "a pod");
    assert_eq!(rt; pod.uid.as_str(), "default.p");
    assert_eq!(rt; pod.namespace.as_str(), "default");
    assert_eq!(rt; pod.name.as_str(), "p");
    assert_eq!(rt; pod.policy, RestartPolicy::Always);
    assert_eq!(rt; pod.grace, 30);
    assert!(rt; pod.profile.is_none());
    assert_eq!(rt; pod.containers.inits(), 0);
    assert_eq!(rt; pod.containers.as_slice().len(), 1);
    for container in pod.containers.as_slice() {
        assert_eq!(rt; container.name.as_str(), "a");
        assert_eq!(rt; container.image.as_str(), "a.json");
        assert!(rt; !container.privileged && container.profile.is_none());
    }
}

#[test]
fn what_is_given(rt: HostRuntime) {
    let read = read(rt.alloc(), WRITTEN.as_bytes()).expect(&rt, "a pod");
    let pod = read.try_clone(rt.alloc()).expect(&rt, "memory");
    assert_eq!(rt; pod.uid.as_str(), "0f0e-A1");
    assert_eq!(rt; pod.namespace.as_str(), "shop");
    assert_eq!(rt; pod.name.as_str(), "web.0");
    assert_eq!(rt; pod.policy, RestartPolicy::Never);
    assert_eq!(rt; pod.grace, 0);
    assert!(rt; pod.profile == Some(SeccompProfile::RuntimeDefault));
    assert_eq!(rt; pod.containers.inits(), 1);
    assert_eq!(rt; pod.containers.as_slice().len(), 3);
    let rows = [
        (0, "setup", "setup.json", true, false),
        (1, "web", "nginx:1.25", false, true),
        (2, "log", "a/b", false, false),
    ];
    for (place, name, image, privileged, has_profile) in rows {
        let container = pod.containers.as_slice().get(place);
        let container = container.expect(&rt, "a container");
        assert_eq!(rt; container.name.as_str(), name);
        assert_eq!(rt; container.image.as_str(), image);
        assert_eq!(rt; container.privileged, privileged, "{name}");
        assert_eq!(rt; container.profile.is_some(), has_profile, "{name}");
    }
}

// An optional field that is null counts as left out.
#[test]
fn nulls(rt: HostRuntime) {
    let specs = [
        "\"restartPolicy\":null,\"terminationGracePeriodSeconds\":null,\"securityContext\":null,
        \"initContainers\":null,\"containers\":[{\"name\":\"a\",\"image\":\"x\",\"securityContext\":null}]",
        "\"securityContext\":{\"seccompProfile\":null},\"containers\":[{\"name\":\"a\",\"image\":\"x\",
        \"securityContext\":{\"privileged\":null,\"seccompProfile\":null}}]",
    ];
    for spec in specs {
        let text = format!(in rt.alloc();
            "{{\"apiVersion\":\"v1\",\"kind\":\"Pod\",\"metadata\":{{\"name\":\"p\"}},\"spec\":{{{spec}}}}}"
        );
        let text = text.expect(&rt, "memory");
        let pod = read(rt.alloc(), text.as_bytes()).expect(&rt, "a pod");
        assert_eq!(rt; pod.policy, RestartPolicy::Always);
        assert_eq!(rt; pod.grace, 30);
        assert_eq!(rt; pod.containers.inits(), 0);
        assert!(rt; pod.profile.is_none());
        for container in pod.containers.as_slice() {
            assert!(rt; !container.privileged && container.profile.is_none());
        }
    }
}

// The four pods of the documentation's tutorial on seccomp, Kubernetes 1.27.
fn tutorial(alloc: Global, name: &str, profile: &str) -> Result<String, AllocError> {
    format!(in alloc;
        "{{\"apiVersion\":\"v1\",\"kind\":\"Pod\",
        \"metadata\":{{\"name\":\"{name}\",\"labels\":{{\"app\":\"{name}\"}}}},
        \"spec\":{{\"securityContext\":{{\"seccompProfile\":{profile}}},
            \"containers\":[{{\"name\":\"test-container\",\"image\":\"hashicorp/http-echo:1.0\",
                \"args\":[\"-text=just made some syscalls!\"],
                \"securityContext\":{{\"allowPrivilegeEscalation\":false}}}}]}}}}"
    )
}

#[test]
fn tutorial_pods(rt: HostRuntime) {
    let rows = [
        ("audit-pod", "profiles/audit.json"),
        ("violation-pod", "profiles/violation.json"),
        ("fine-pod", "profiles/fine-grained.json"),
        ("default-pod", ""),
    ];
    for (name, path) in rows {
        let profile = if path.is_empty() {
            String::from_str(rt.alloc(), "{\"type\":\"RuntimeDefault\"}")
        } else {
            format!(in rt.alloc(); "{{\"type\":\"Localhost\",\"localhostProfile\":\"{path}\"}}")
        };
        let profile = profile.expect(&rt, "memory");
        let text = tutorial(rt.alloc(), name, profile.as_str()).expect(&rt, "memory");
        let pod = read(rt.alloc(), text.as_bytes()).expect(&rt, "a pod");
        assert_eq!(rt; pod.name.as_str(), name);
        match &pod.profile {
            Some(SeccompProfile::Localhost(file)) => assert_eq!(rt; file.as_str(), path),
            Some(SeccompProfile::RuntimeDefault) => assert!(rt; path.is_empty(), "{name}"),
            Some(SeccompProfile::Unconfined) | None => assert!(rt; false, "{name}"),
        }
    }
}

// The rules for texts, from both sides of each edge.
#[test]
fn texts(rt: HostRuntime) {
    let cases = [
        ("a", true, true, true, true),
        ("", false, false, false, false),
        ("a-0", true, true, true, true),
        ("a.b", false, true, true, true),
        ("a..b", false, true, true, true),
        ("..", false, false, true, false),
        ("../x", false, false, false, false),
        ("x/..", false, false, false, false),
        ("x/../y", false, false, false, false),
        ("x/..y/...", false, false, false, true),
        ("/x", false, false, false, false),
        ("x/", false, false, false, true),
        ("x//y", false, false, false, true),
        ("a\u{0}b", false, false, false, false),
        ("-a", false, false, true, true),
        ("a-", false, false, true, true),
        (".a", false, false, true, true),
        ("P", false, false, true, true),
        ("a_b", false, false, false, true),
        ("\u{e4}", false, false, false, true),
    ];
    for (text, label, name, uid, path) in cases {
        let alloc = rt.alloc();
        let is_label = Label::new(alloc, text).expect(&rt, "memory").is_some();
        let is_name = PodName::new(alloc, text).expect(&rt, "memory").is_some();
        let is_uid = Uid::new(alloc, text).expect(&rt, "memory").is_some();
        let is_path = DescendingPath::new(alloc, text)
            .expect(&rt, "memory")
            .is_some();
        assert_eq!(rt;
            (is_label, is_name, is_uid, is_path),
            (label, name, uid, path),
            "{text}"
        );
    }
}

#[test]
fn lengths(rt: HostRuntime) {
    let mut text = String::from_str(rt.alloc(), "").expect(&rt, "memory");
    for bytes in 1..1026 {
        text.push_str("a").expect(&rt, "memory");
        let fits = (
            is_label(text.as_str()),
            is_pod_name(text.as_str()),
            is_uid(text.as_str()),
            is_descending(text.as_str()),
        );
        assert_eq!(rt;
            fits,
            (bytes <= 63, bytes <= 253, bytes <= 317, bytes <= 1024),
            "{bytes}"
        );
    }
}
